// What document 01 means. The crate holds no code: its definitions stand in specs/, one module for
// each heading of document 01, and every other crate's contracts cite them.
#![tactic(auto)]
