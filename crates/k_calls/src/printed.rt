// How the calls are printed.
ghost use Rattle.std.specs.Prelude.{List, ℕ, ◌≡◌, ◌+◌, ◌≤◌, [], ◌∷◌, ◌++◌, codes, decimal, length};
ghost use Rattle.k_text.specs.Texts.{spaced};
ghost use Rattle.k_calls.specs.Texts.{call_text};

use crate::lines::CallLine;
use k_text::{Line, Printed};

/// `call ID SERIAL steps S helped H`.
impl Printed for CallLine {
    ghost text = { call_text };

    fn line(&self) -> Line {
        let mut line = Line::new();
        line.push(b"call");
        line.push_id(self.id);
        line.push_number(self.serial);
        push_counts(&mut line, self);
        line.end();
        line
    }
}

/// Appends how many steps a call made, and how many of them were helped.
fn push_counts(line: &mut Line, call: &CallLine)
    requires { length line.old + 35 ≤ 128 }
    ensures text { line.new ≡ line.old ++ spaced (codes "steps" ∷ decimal call.now.steps ∷ codes "helped" ∷ decimal call.now.helped ∷ []) }
    ensures short { length line.new ≤ length line.old + 35 }
{
    line.push_word(b"steps");
    line.push_number(call.steps);
    line.push_word(b"helped");
    line.push_number(call.helped);
}
