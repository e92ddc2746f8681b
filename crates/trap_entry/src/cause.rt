ghost use Rattle.std.specs.Prelude.{◌≡◌};
ghost use Rattle.trap_entry.specs.Entries.{address_of, cause_bits, esr_of, word_of};

/// A fault that is raised as an exception.
#[derive(Clone, Copy, PartialEq, Eq, Debug)]
pub enum Cause {
    /// An item of a link port, whose control bit is not the expected one.
    Stream {
        port: u8,
        word: u32,
    },
    /// An access to an address that is no multiple of its size: of a word or of half a word, a store or a load, with
    /// the register that is stored or loaded.
    Unaligned {
        addr: u32,
        word: bool,
        store: bool,
        reg: u8,
    },
    /// A word that is no instruction.
    Illegal,
    /// A pc at which no instruction can be fetched.
    InstrBus,
    /// An address that no memory and no device answers.
    DataBus(u32),
    DivideZero,
    DivideOverflow,
}

impl Cause {
    /// The cause in ESR, with what is specific to it.
    fn bits(&self) -> u16
        ensures { result ≡ cause_bits self.now }
    {
        match *self {
            Cause::Stream { port, .. } => u16::from(port) << 5,
            Cause::Unaligned {
                word,
                store,
                reg,
                ..
            } => {
                let width = if word { 0x800 } else { 0 };
                let direction = if store { 0x400 } else { 0 };
                1 + width + direction + (u16::from(reg) << 5)
            }
            Cause::Illegal => 2,
            Cause::InstrBus => 3,
            Cause::DataBus(_) => 4,
            Cause::DivideZero => 5,
            Cause::DivideOverflow => 0x805,
        }
    }

    /// The address that the fault puts into EAR, if any.
    pub(crate) fn address(&self) -> Option<u32>
        ensures { result ≡ address_of self.now }
    {
        match *self {
            Cause::Unaligned { addr, .. } => Some(addr),
            Cause::DataBus(addr) => Some(addr),
            _ => None,
        }
    }

    /// The word that the fault puts into EDR, if any.
    pub(crate) fn word(&self) -> Option<u32>
        ensures { result ≡ word_of self.now }
    {
        match *self {
            Cause::Stream { word, .. } => Some(word),
            _ => None,
        }
    }
}

/// The exception status register at a fault (UG984, Exception Status Register): its cause, with the port of a stream
/// or the kind and the register of an unaligned access, and DS in a slot.
pub fn esr_of(c: &Cause, in_slot: bool) -> u32
    ensures { result ≡ esr_of c.now in_slot }
{
    let delay_slot = if in_slot { 0x1000 } else { 0 };
    u32::from(c.bits()) + delay_slot
}
