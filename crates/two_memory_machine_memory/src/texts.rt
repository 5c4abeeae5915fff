// The length of texts in trusted memory.

ghost use Rattle.std.specs.Prelude.{◌+◌, ◌≤◌, ◌<◌, length};
ghost use Rattle.two_memory_machine_memory.specs.Texts.{IsWalked, IsEarly};

use trusted_memory::memory::Trusted;

/// What ends a walk over a text.
#[derive(Clone, Copy)]
pub enum TextEnd {
    /// A byte that is 0.
    Zero,
    /// The end of the memory.
    Outside,
    /// The end of the budget.
    NoTick,
}

/// A walk over a text: how many bytes stand before its end, and what that is.
#[derive(Clone, Copy)]
pub struct Walk {
    pub count: u32,
    pub end: TextEnd,
}

/// Walks over a text from an address on. Before each byte a tick is spent.
pub fn walk_text(memory: &Trusted, start: u32, ticks: u32, budget: u32) -> Walk
    requires { ticks ≤ budget }
    ensures walked { IsWalked memory.now start ticks budget result }
    ensures few { ticks + result.count ≤ budget }
    ensures tick { IsEarly result.end → ticks + result.count < budget }
{
    let mut count = 0;
    let mut at = start;
    while ticks + count < budget {
        match memory.byte(at) {
            None => {
                return Walk {
                    count,
                    end: TextEnd::Outside,
                };
            }
            Some(0) => {
                return Walk {
                    count,
                    end: TextEnd::Zero,
                };
            }
            Some(_) => {}
        }
        count += 1;
        at += 1;
    }
    Walk {
        count,
        end: TextEnd::NoTick,
    }
}
