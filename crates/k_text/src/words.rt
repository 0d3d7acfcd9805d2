// The words of threads, calls, outcomes and replies, each behind a space.
ghost use Rattle.std.specs.Prelude.{◌≡◌, ◌+◌, ◌≤◌, [], ◌∷◌, ◌++◌, length};
ghost use Rattle.k_ids.specs.declared.calls.Phase.TheVariants as phase;
ghost use Rattle.k_text.specs.Texts.{act_words, full_words, found_words, id_word, is_printed, message_words, now_words, outcome_words, phase_words, reply_words, result_words, spaced, status_words};

use crate::line::Line;
use k_ids::{Act, Found, Message, Outcome, Phase, Reply, Status, ThreadId};

/// Whether the outcome stands behind its event in a history: all but those of an end and of a gone.
fn is_printed(outcome: Outcome) -> bool
    ensures { result ≡ is_printed outcome }
{
    !matches!(outcome, Outcome::Ended | Outcome::Freed)
}

/// Threads.
impl Line {
    /// Appends `NUMBER.VERSION`, without a space before it.
    pub fn push_id_text(&mut self, id: ThreadId)
        requires { length self.old + 14 ≤ 128 }
        ensures text { self.new ≡ self.old ++ id_word id }
        ensures short { length self.new ≤ length self.old + 14 }
    {
        self.push_small_digits(id.number);
        self.push(b".");
        self.push_digits(id.version);
    }

    /// Appends ` NUMBER.VERSION`.
    pub fn push_id(&mut self, id: ThreadId)
        requires { length self.old + 15 ≤ 128 }
        ensures text { self.new ≡ self.old ++ spaced (id_word id ∷ []) }
        ensures short { length self.new ≤ length self.old + 15 }
    {
        self.push(b" ");
        self.push_id_text(id);
    }

    /// Appends ` LOW HIGH`.
    pub fn push_message(&mut self, message: Message)
        requires { length self.old + 22 ≤ 128 }
        ensures text { self.new ≡ self.old ++ spaced (message_words message) }
        ensures short { length self.new ≤ length self.old + 22 }
    {
        self.push_number(message.low);
        self.push_number(message.high);
    }

    /// Appends a status.
    pub fn push_status(&mut self, status: Status)
        requires { length self.old + 25 ≤ 128 }
        ensures text { self.new ≡ self.old ++ spaced (status_words status) }
        ensures short { length self.new ≤ length self.old + 25 }
    {
        match status {
            Status::Dead => self.push_word(b"dead"),
            Status::Run => self.push_word(b"run"),
            Status::Sending { to } => {
                self.push_word(b"sending");
                self.push_id(to);
            }
            Status::Receiving { from: Some(from) } => {
                self.push_word(b"receiving");
                self.push_id(from);
            }
            Status::Receiving { from: None } => {
                self.push_word(b"receiving");
                self.push_word(b"any");
            }
            Status::Picking => self.push_word(b"picking"),
            Status::Ended => self.push_word(b"ended"),
        }
    }

    /// Appends what a number shows: an id and its status.
    pub fn push_found(&mut self, found: Found)
        requires { length self.old + 40 ≤ 128 }
        ensures text { self.new ≡ self.old ++ spaced (found_words found) }
        ensures short { length self.new ≤ length self.old + 40 }
    {
        self.push_id(found.id);
        self.push_status(found.status);
    }
}

/// Calls and what comes of them.
impl Line {
    fn push_now(&mut self, zero: bool)
        requires { length self.old + 4 ≤ 128 }
        ensures text { self.new ≡ self.old ++ spaced (now_words zero) }
        ensures short { length self.new ≤ length self.old + 4 }
    {
        if zero {
            self.push_word(b"now");
        }
    }

    fn push_receive(&mut self, from: Option<ThreadId>, zero: bool)
        requires { length self.old + 28 ≤ 128 }
        ensures text { self.new ≡ self.old ++ spaced (phase_words (phase.Receive from zero)) }
        ensures short { length self.new ≤ length self.old + 28 }
    {
        match from {
            Some(from) => {
                self.push_word(b"receive");
                self.push_id(from);
            }
            None => self.push_word(b"wait"),
        }
        self.push_now(zero);
    }

    /// Appends a phase, with ` now` where its timeout is zero.
    pub fn push_phase(&mut self, phase: Phase)
        requires { length self.old + 47 ≤ 128 }
        ensures text { self.new ≡ self.old ++ spaced (phase_words phase) }
        ensures short { length self.new ≤ length self.old + 47 }
    {
        match phase {
            Phase::Send {
                to,
                message,
                zero,
                joined,
            } => {
                self.push_word(if joined { b"call" } else { b"send" });
                self.push_id(to);
                self.push_message(message);
                self.push_now(zero);
            }
            Phase::Receive { from, zero } => self.push_receive(from, zero),
            Phase::Create { program, priority } => {
                self.push_word(b"create");
                self.push_small(program);
                self.push_small(priority);
            }
            Phase::Destroy { who } => {
                self.push_word(b"destroy");
                self.push_id(who);
            }
            Phase::Reply { to, message, zero } => {
                self.push_word(b"reply");
                self.push_id(to);
                self.push_message(message);
                self.push_now(zero);
            }
            Phase::End => self.push_word(b"end"),
        }
    }

    /// Appends what happens in an event: a phase, ` gone` or ` pick`.
    pub fn push_act(&mut self, act: Act)
        requires { length self.old + 47 ≤ 128 }
        ensures text { self.new ≡ self.old ++ spaced (act_words act) }
        ensures short { length self.new ≤ length self.old + 47 }
    {
        match act {
            Act::Call { phase } => self.push_phase(phase),
            Act::Gone => self.push_word(b"gone"),
            Act::Pick => self.push_word(b"pick"),
        }
    }

    fn push_full(&mut self, alive: u8, worn: u8)
        requires { length self.old + 24 ≤ 128 }
        ensures text { self.new ≡ self.old ++ spaced (full_words alive worn) }
        ensures short { length self.new ≤ length self.old + 24 }
    {
        self.push(b" full alive");
        self.push_small(alive);
        self.push(b" worn");
        self.push_small(worn);
    }

    /// Appends an outcome, and nothing for those of an end and of a gone.
    pub fn push_outcome(&mut self, outcome: Outcome)
        requires { length self.old + 47 ≤ 128 }
        ensures text { self.new ≡ self.old ++ spaced (outcome_words outcome) }
        ensures short { length self.new ≤ length self.old + 47 }
    {
        match outcome {
            Outcome::Passed => self.push_word(b"passed"),
            Outcome::Waits => self.push_word(b"waits"),
            Outcome::Took { from, message } => {
                self.push_word(b"took");
                self.push_id(from);
                self.push_message(message);
            }
            Outcome::Made { id } => {
                self.push_word(b"made");
                self.push_id(id);
            }
            Outcome::Killed => self.push_word(b"killed"),
            Outcome::Absent { found } => {
                self.push_word(b"absent");
                self.push_found(found);
            }
            Outcome::Busy { found } => {
                self.push_word(b"busy");
                self.push_found(found);
            }
            Outcome::Nobody => self.push_word(b"nobody"),
            Outcome::Own => self.push_word(b"own"),
            Outcome::Full { alive, worn } => self.push_full(alive, worn),
            Outcome::Ended | Outcome::Freed => {}
        }
    }

    /// Appends ` -> OUTCOME`, and nothing for an outcome that isn't printed.
    pub fn push_result(&mut self, outcome: Outcome)
        requires { length self.old + 50 ≤ 128 }
        ensures text { self.new ≡ self.old ++ spaced (result_words outcome) }
        ensures short { length self.new ≤ length self.old + 50 }
    {
        if is_printed(outcome) {
            self.push_word(b"->");
            self.push_outcome(outcome);
        }
    }

    /// Appends a reply.
    pub fn push_reply(&mut self, reply: Reply)
        requires { length self.old + 47 ≤ 128 }
        ensures text { self.new ≡ self.old ++ spaced (reply_words reply) }
        ensures short { length self.new ≤ length self.old + 47 }
    {
        match reply {
            Reply::Sent => self.push_word(b"sent"),
            Reply::Got { from, message } => {
                self.push_word(b"got");
                self.push_id(from);
                self.push_message(message);
            }
            Reply::Made { id } => {
                self.push_word(b"made");
                self.push_id(id);
            }
            Reply::Killed => self.push_word(b"killed"),
            Reply::Absent { found } => {
                self.push_word(b"absent");
                self.push_found(found);
            }
            Reply::Busy { found } => {
                self.push_word(b"busy");
                self.push_found(found);
            }
            Reply::Nobody => self.push_word(b"nobody"),
            Reply::Own => self.push_word(b"own"),
            Reply::Full { alive, worn } => self.push_full(alive, worn),
            Reply::Gone => self.push_word(b"gone"),
        }
    }
}
