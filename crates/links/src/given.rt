// What a result is made of, besides the working table.
ghost use Rattle.std.specs.Prelude.{◌≡◌, ◌<◌, length};
ghost use Rattle.links.specs.Standing.{Known, entry_place};
ghost use Rattle.links.specs.Props.{Known-prop};

// The code, a subject that was accepted, and the entries, the newest last: each a place in the subject.
#[derive(Clone, Copy)]
pub struct Given<'a> {
    pub code: &'a [u32],
    pub subject: &'a [u32],
    pub entries: &'a [u32],
    ghost known: { Known code.now subject.now entries.now } by { Known-prop code.now subject.now entries.now },
}

impl<'a> Given<'a> {
    // Where an entry, counted from the newest, begins in the subject.
    pub fn entry(&self, operand: u32) -> usize
        requires { operand < length self.now.entries.now }
        ensures { result ≡ entry_place self.now.entries.now operand }
    {
        self.entries[self.entries.len() - 1 - operand as usize] as usize
    }
}
