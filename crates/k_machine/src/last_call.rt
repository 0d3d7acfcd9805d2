// The last call of one number.
ghost use Rattle.k_machine.specs.Replies.{is_call, noted};
ghost use Rattle.std.specs.Prelude.{◌≡◌};

use k_ids::Reply;

/// The last call of a number, and the reply to it if it has one yet.
#[derive(Clone, Copy, Debug, PartialEq, Eq)]
pub struct LastCall {
    /// The version of the thread that made it.
    pub version: u32,
    /// 0 where the thread has made no call.
    pub serial: u32,
    pub reply: Option<Reply>,
}

impl LastCall {
    /// Whether it is the call with this serial of this version's thread.
    pub fn is_call(&self, version: u32, serial: u32) -> bool
        ensures { result ≡ is_call self.now version serial }
    {
        version == self.version && serial == self.serial
    }

    /// A reply came, to this call or to another. The first reply to a call stays.
    pub fn note(&mut self, version: u32, serial: u32, reply: Reply)
        ensures { self.new ≡ noted self.old version serial reply }
    {
        if self.is_call(version, serial) && self.reply.is_none() {
            self.reply = Some(reply);
        }
    }
}
