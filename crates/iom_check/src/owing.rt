//! What is owed at a script's end.

ghost use Rattle.std.specs.Prelude.{◌≡◌, ◌≤◌, length};
ghost use Rattle.iom_check.specs.Owing.{owed_message};

use iom_debug::{OutputPage, put};

/// What is said of a request that is owed: it has this title, and a line of this name made it.
#[tactic(auto, unfolding(crate::specs::Owing::owed_message))]
pub fn owed_message(title: &[u8], line: &[u8], elsewhere: &[u8]) -> OutputPage
    requires title { length title.now ≤ 64 }
    requires line { length line.now ≤ 2080 }
    requires elsewhere { length elsewhere.now ≤ 5080 }
    ensures text { result.items ≡ owed_message title.now line.now elsewhere.now }
    ensures room { length result.items ≤ 7300 }
{
    let mut out = OutputPage::new();
    put(&mut out, title);
    put(&mut out, b", as in ");
    put(&mut out, line);
    put(&mut out, b",");
    put(&mut out, elsewhere);
    out
}
