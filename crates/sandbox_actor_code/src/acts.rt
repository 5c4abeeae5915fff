// Loads and stores, which are acts.

ghost use Rattle.std.specs.Prelude.{◌≡◌, ◌≤◌, drop, length};
ghost use Rattle.act_words.specs.Acts.{Read, Write};
ghost use Rattle.code_words.specs.SandboxCode.{Acts, Looks, Runs};
ghost use Rattle.sandbox_actor_code.specs.Codes.{Does, IsReady, Leads, behind, looking, running};

use crate::code_actor::{CodeActor, Phase};
use act_words::act::{Act, ByteCount, SomeOctets};
use code_words::op::Op;

impl<'a> CodeActor<'a> {
    /// Pops an offset, and looks at a byte there.
    pub(crate) fn load_1(&mut self) -> Option<Act>
        requires { IsReady self.old }
        ensures { Does Op.Load1 self.old result self.new }
    {
        let Some(at) = self.word() else {
            return self.stop();
        };
        self.look_at(at, ByteCount { number: 1 })
    }

    /// Pops an offset, and looks at a word there.
    pub(crate) fn load_4(&mut self) -> Option<Act>
        requires { IsReady self.old }
        ensures { Does Op.Load4 self.old result self.new }
    {
        let Some(at) = self.word() else {
            return self.stop();
        };
        self.look_at(at, ByteCount { number: 4 })
    }

    // Pops a word, and looks at so many bytes.
    fn look_at(&mut self, at: u32, len: ByteCount) -> Option<Act>
        requires ready { IsReady self.old }
        requires there { 1 ≤ length self.old.call.frame.stack }
        ensures { Leads (Acts (Read at len.number) (record (looking self.old)
            { doing = Looks (behind self.old.call.frame (drop 1 self.old.call.frame.stack)) }))
            self.old result self.new }
    {
        self.call.pop(1);
        self.call.advance();
        self.phase = Phase::Looks;
        Some(Act::Read { at, len })
    }

    /// Pops a word and an offset, and stores its lowest byte there.
    pub(crate) fn store_1(&mut self) -> Option<Act>
        requires { IsReady self.old }
        ensures { Does Op.Store1 self.old result self.new }
    {
        let Some((at, word)) = self.two_words() else {
            return self.stop();
        };
        let byte = (word % 256) as u8;
        self.change(at, some_octets(&byte.to_le_bytes()))
    }

    /// Pops a word and an offset, and stores the word there.
    pub(crate) fn store_4(&mut self) -> Option<Act>
        requires { IsReady self.old }
        ensures { Does Op.Store4 self.old result self.new }
    {
        let Some((at, word)) = self.two_words() else {
            return self.stop();
        };
        self.change(at, some_octets(&word.to_le_bytes()))
    }

    // Pops two words, and changes bytes.
    fn change(&mut self, at: u32, bytes: SomeOctets) -> Option<Act>
        requires ready { IsReady self.old }
        requires there { 2 ≤ length self.old.call.frame.stack }
        ensures { Leads (Acts (Write at bytes.octets) (record (running self.old)
            { doing = Runs (behind self.old.call.frame (drop 2 self.old.call.frame.stack)) }))
            self.old result self.new }
    {
        self.call.pop(2);
        self.call.advance();
        Some(Act::Write { at, bytes })
    }
}

// These bytes.
fn some_octets(bytes: &[u8]) -> SomeOctets
    requires some { 1 ≤ length bytes.now }
    requires few { length bytes.now ≤ 64 }
    ensures { result.octets ≡ bytes.now }
{
    SomeOctets::from_slice(bytes).unwrap()
}
