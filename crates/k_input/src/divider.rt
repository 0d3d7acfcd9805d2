// How much of an input is surely script, as its bytes come.
ghost use Rattle.std.specs.Prelude.{◌≡◌, ◌+◌, ◌*◌, ◌<◌, ◌≤◌, ◌⊎◌, length, true, false};
ghost use Rattle.k_input.specs.Counting.{begun_by, script_by, fed, fed_all, is_large};
ghost use Rattle.k_input.specs.declared.divider.Begun.TheVariants as begun;

/// As many bytes as a script may have.
pub(crate) const MOST_SCRIPT: usize = 1_048_576;

/// As many bytes as a script and a history may have.
pub(crate) const MOST_INPUT: usize = 135_266_304;

/// What has come of the line whose line feed has not come.
#[derive(Clone, Copy, Debug, PartialEq, Eq)]
pub(crate) enum Begun {
    Nothing,
    /// `-`.
    Dash,
    /// `--`.
    Dashes,
    /// Anything else of the script.
    Script,
    /// Anything of the history.
    History,
}

impl Begun {
    fn by(self, b: u8) -> Begun
        ensures { result ≡ begun_by self b }
    {
        match (self, b) {
            (Begun::History, _) => Begun::History,
            (Begun::Dashes, b'\n') => Begun::History,
            (_, b'\n') => Begun::Nothing,
            (Begun::Nothing, b'-') => Begun::Dash,
            (Begun::Dash, b'-') => Begun::Dashes,
            _ => Begun::Script,
        }
    }

    fn script_by(self, b: u8) -> usize
        ensures exact { result ≡ script_by self b }
        ensures few { result ≤ 3 }
    {
        match (self, b) {
            (Begun::Nothing, b'-') | (Begun::Dash, b'-') => 0,
            (Begun::Dashes, b'\n') | (Begun::History, _) => 0,
            (Begun::Nothing, _) | (Begun::Script, _) => 1,
            (Begun::Dash, _) => 2,
            (Begun::Dashes, _) => 3,
        }
    }
}

/// The counts of an input's bytes.
#[derive(Clone, Copy, Debug)]
pub(crate) struct Divider {
    begun: Begun,
    /// The bytes that are surely script. Those of a line that may still divide are not among them.
    script: usize,
    /// All bytes.
    len: usize,
}

impl Divider {
    pub(crate) fn new() -> Divider
        ensures { result ≡ record { begun = begun.Nothing; script = 0; len = 0 } }
    {
        Divider {
            begun: Begun::Nothing,
            script: 0,
            len: 0,
        }
    }

    fn feed(self, b: u8) -> Divider
        requires script { self.script < 1000000000 }
        requires len { self.len < 1000000000 }
        ensures { result ≡ fed self b }
    {
        Divider {
            begun: self.begun.by(b),
            script: self.script + self.begun.script_by(b),
            len: self.len + 1,
        }
    }

    /// Counts these bytes too.
    pub(crate) fn feed_all(self, bytes: &[u8]) -> Divider
        requires script { self.script + 3 * length bytes.now < 1000000000 }
        requires len { self.len + length bytes.now < 1000000000 }
        ensures { result ≡ fed_all self bytes.now }
    {
        let mut divider = self;
        for b in bytes {
            divider = divider.feed(*b);
        }
        divider
    }

    pub(crate) fn is_large(self) -> bool
        ensures { result ≡ is_large self }
    {
        self.script > MOST_SCRIPT || self.len > MOST_INPUT
    }

    /// How many bytes may be taken now, so that none is taken behind one that makes the input surely too large.
    /// Condition: it isn't yet.
    pub(crate) fn room(self) -> usize
        requires { is_large self ≡ false }
        ensures some { 0 < result }
        ensures within { (self.begun ≡ begun.History × (self.len + result ≤ 135266305)) ⊎ (self.len + result ≤ 1048577) ⊎ (result ≡ 1) }
    {
        if self.begun == Begun::History {
            return MOST_INPUT + 1 - self.len;
        }
        (MOST_SCRIPT + 1).saturating_sub(self.len).max(1)
    }
}
