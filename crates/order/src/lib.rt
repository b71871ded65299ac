// The total order of a book's rules: repeatedly the lowest-numbered rule not yet taken all of whose
// predecessors are taken. Masks and taken rules are arrays by value while the order is built.
#![tactic(auto)]

ghost use Rattle.std.specs.Prelude.{◌≡◌, ◌≤◌, ◌<◌, take};
ghost use Rattle.meaning.specs.Base.{first_with, up_from};
ghost use Rattle.meaning.specs.Processing.TotalOrder.{order_of};
ghost use Rattle.order.specs.Order.{order_meant, ready_meant, MaskOf, MasksOf, passed, all_passed, may_go};

// The mask of the rules that precede rule j, built from its highest bit down.
fn predecessors_of(precedes: [usize; 16], n: usize, j: usize) -> usize
    requires { (n ≤ 16) × (j < 16) }
    ensures { MaskOf precedes n j result }
{
    let mut mask = 0;
    for i in (0..n).rev() {
        mask = mask * 2 + words::bit_at(precedes[i], j);
    }
    mask
}

// For each rule of n the mask of the rules that precede it.
fn predecessors(precedes: [usize; 16], n: usize) -> [usize; 16]
    requires { n ≤ 16 }
    ensures { MasksOf precedes n result }
{
    let mut masks = [0; 16];
    for j in 0..n {
        masks[j] = predecessors_of(precedes, n, j);
    }
    masks
}

// Rule i is none of these predecessors, or it is taken.
fn is_passed(mask: usize, taken: [bool; 16], i: usize) -> bool
    requires { i < 16 }
    ensures { result ≡ passed mask taken i }
{
    !words::has_bit(mask, i) || taken[i]
}

// All of these predecessors are taken.
fn all_passed(mask: usize, taken: [bool; 16], n: usize) -> bool
    requires { n ≤ 16 }
    ensures { result ≡ all_passed mask taken n }
{
    (0..n).all(|i| is_passed(mask, taken, i))
}

// Rule j is not taken, and all of its predecessors are.
fn is_ready(masks: [usize; 16], taken: [bool; 16], n: usize, j: usize) -> bool
    requires { (n ≤ 16) × (j < 16) }
    ensures { result ≡ may_go masks taken n j }
{
    !taken[j] && all_passed(masks[j], taken, n)
}

// The lowest-numbered rule that is ready.
fn next_ready(masks: [usize; 16], taken: [bool; 16], n: usize) -> Option<usize>
    requires { n ≤ 16 }
    ensures { ready_meant result ≡ first_with (may_go masks taken n) (up_from 0 n) }
{
    (0..n).find(|&j| is_ready(masks, taken, n, j))
}

// The rules' numbers in total order at the front, where there is one. precedes: for each rule of n the mask of the rules that it
// precedes.
pub fn total_order(precedes: [usize; 16], n: usize) -> Option<[u8; 16]>
    requires { n ≤ 16 }
    ensures { order_meant n result ≡ order_of (take n precedes) }
{
    let masks = predecessors(precedes, n);
    let mut taken = [false; 16];
    let mut rules = [0; 16];
    for rank in 0..n {
        let j = next_ready(masks, taken, n)?;
        taken[j] = true;
        rules[rank] = j as u8;
    }
    Some(rules)
}
