// What image, book and log share: the frame around their fields, and values in a row.
#![tactic(auto)]

ghost use Rattle.std.specs.Prelude.{◌≡◌, ◌≤◌};
ghost use Rattle.meaning.specs.Reading.{many};
ghost use Rattle.meaning.specs.ByteLayouts.{value};
ghost use Rattle.words.specs.Words.{end_of};
ghost use Rattle.fields.specs.Fields.{well_framed};

// Where the fields begin: after the length and the version.
pub const FIELDS: usize = 5;

// Whether the length accounts for the slice exactly, and the version is 1.
pub fn well_framed(s: &[u8]) -> bool
    ensures { result ≡ well_framed s.now }
{
    if !words::has(s, 0, 4) {
        return false;
    }
    let rest = s.len() - 4;
    if words::word32(s, 0) as usize != rest {
        return false;
    }
    words::byte(s, 4) == 1
}

// Where n values end: none of them end where they begin, past the slice too.
pub fn values_end(s: &[u8], at: usize, n: usize) -> Option<usize>
    requires { n ≤ 4 }
    ensures { result ≡ end_of (many n value s.now at) }
{
    if n != 0 && !words::has(s, at, n * 4) {
        return None;
    }
    Some(at + n * 4)
}
