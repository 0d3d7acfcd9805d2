// The words of waits, each behind a space.
ghost use Rattle.std.specs.Prelude.{◌≡◌, ◌+◌, ◌≤◌, [], ◌∷◌, ◌++◌, codes, decimal, length};
ghost use Rattle.k_text.specs.Texts.{joined, spaced};
ghost use Rattle.k_report.specs.Waits.{end_word, link_words, owner_word, wait_words, want_words};
ghost use Rattle.k_report.specs.Putting.{link_text};

use itoa::Buffer;
use k_carrier::{Link, WaitMark, Want};
use k_context::Owner;
use k_locks::Lock;
use k_text::Line;

/// Appends an owner.
fn push_owner(line: &mut Line, owner: Owner)
    requires { length line.old + 15 ≤ 128 }
    ensures text { line.new ≡ line.old ++ spaced (owner_word owner ∷ []) }
    ensures short { length line.new ≤ length line.old + 15 }
{
    match owner {
        Owner::Thread(id) => line.push_id(id),
        Owner::Carrier(c) => {
            line.push(b" c");
            line.push_small_digits(c);
        }
    }
}

/// Appends what was waited for.
fn push_want(line: &mut Line, want: Want)
    requires { length line.old + 12 ≤ 128 }
    ensures text { line.new ≡ line.old ++ spaced (want_words want) }
    ensures short { length line.new ≤ length line.old + 12 }
{
    match want {
        Want::Lock(Lock::Table) => line.push_word(b"table"),
        Want::Lock(Lock::Ready) => line.push_word(b"ready"),
        Want::Lock(Lock::Thread(t)) => {
            line.push_word(b"thread");
            line.push_small(t);
        }
        Want::Context(t) => {
            line.push_word(b"context");
            line.push_small(t);
        }
    }
}

/// Appends whether the wait was got.
fn push_end(line: &mut Line, got: bool)
    requires { length line.old + 7 ≤ 128 }
    ensures text { line.new ≡ line.old ++ spaced (end_word got ∷ []) }
    ensures short { length line.new ≤ length line.old + 7 }
{
    if got {
        line.push_word(b"got");
    } else {
        line.push_word(b"broken");
    }
}

/// Appends how many steps a wait was allowed, and how many it used.
fn push_counts(line: &mut Line, mark: &WaitMark)
    requires { length line.old + 35 ≤ 128 }
    ensures text { line.new ≡ line.old ++ spaced (codes "allowed" ∷ decimal mark.now.allowed ∷ codes "used" ∷ decimal mark.now.used ∷ []) }
    ensures short { length line.new ≤ length line.old + 35 }
{
    line.push_word(b"allowed");
    line.push_number(mark.allowed);
    line.push_word(b"used");
    line.push_number(mark.used);
}

/// The words of a wait before its chain.
pub(crate) fn wait_line(mark: &WaitMark) -> Line
    ensures text { result ≡ joined (wait_words mark.now) }
    ensures short { length result ≤ 90 }
{
    let mut line = Line::new();
    line.push(b"wait");
    push_owner(&mut line, mark.requester);
    line.push_number(mark.serial);
    push_want(&mut line, mark.wants);
    push_end(&mut line, mark.got);
    push_counts(&mut line, mark);
    line.push_word(b"chain");
    line
}

/// Appends a link.
pub(crate) fn push_link(line: &mut Line, link: &Link)
    requires { length line.old + 37 ≤ 128 }
    ensures text { line.new ≡ line.old ++ link_text link.now }
    ensures short { length line.new ≤ length line.old + 37 }
{
    push_owner(line, link.owner);
    line.push_number(link.serial);
    line.push_number(link.left);
}

/// Appends a large number, of at most 20 digits.
pub(crate) fn push_large(line: &mut Line, n: u64)
    requires { length line.old + 21 ≤ 128 }
    ensures text { line.new ≡ line.old ++ (codes " " ++ decimal n) }
    ensures short { length line.new ≤ length line.old + 21 }
{
    let mut buffer = Buffer::new();
    line.push_word(buffer.format(n).as_bytes());
}
