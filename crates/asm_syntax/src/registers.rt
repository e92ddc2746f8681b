ghost use Rattle.std.specs.Prelude.{◌≡◌, ◌<◌};
ghost use Rattle.asm_syntax.specs.Operands.{port_name, port_of, register_name, register_of};

use host_io::Text;
use itoa::Buffer;

/// The room of an operand.
pub type OperandText = Text<12>;

/// `r` and the number of a register.
#[tactic(auto, unfolding(crate::specs::Operands::register_name))]
pub fn register_name(number: u8) -> OperandText
    ensures { result ≡ register_name number }
{
    let mut text = OperandText::new();
    text.push(b"r");
    text.push(Buffer::new().format(number).as_bytes());
    text
}

/// `rfsl` and the number of a port.
#[tactic(auto, unfolding(crate::specs::Operands::port_name))]
pub fn port_name(number: u16) -> OperandText
    ensures { result ≡ port_name number }
{
    let mut text = OperandText::new();
    text.push(b"rfsl");
    text.push(Buffer::new().format(number).as_bytes());
    text
}

/// The register with this name.
#[tactic(auto, unfolding(crate::specs::Operands::register_of))]
pub fn register_of(word: &[u8]) -> Option<u8>
    ensures { result ≡ register_of word.now }
{
    (0..32u8).find(|number| register_name(*number).as_bytes() == word)
}

/// The port with this name.
#[tactic(auto, unfolding(crate::specs::Operands::port_of))]
pub fn port_of(word: &[u8]) -> Option<u16>
    ensures { result ≡ port_of word.now }
{
    (0..16u16).find(|number| port_name(*number).as_bytes() == word)
}
