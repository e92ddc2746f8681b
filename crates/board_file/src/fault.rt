//! The faults of a board file: what is wrong, and where; and the least of several.
ghost use Rattle.std.specs.Prelude.{◌≡◌, Some, None};
ghost use Rattle.board_file.specs.Faults.{code_of, comes_first, fault, fault_at, fault_unless, is_earlier, least_after, lesser, refusal};
ghost use Rattle.board_file.specs.declared.fault.BoardFault.TheVariants.{NoMemory as NoMemoryToRead};

use host_io::{NoMemory, Place};
use thiserror::Error;

/// Why a board file is refused.
#[derive(Debug, Drop, Error)]
pub enum BoardFault {
    /// The least code, 601 to 620, that has a fault, and the first place of that code in byte order.
    #[error("board fault {code}")]
    Refused { code: u16, place: Place },
    /// Memory was refused.
    #[error("no memory")]
    NoMemory,
}

impl From<NoMemory> for BoardFault {
    ghost from_gives = { λ _ fault. fault ≡ NoMemoryToRead };

    fn from(_error: NoMemory) -> Self {
        BoardFault::NoMemory
    }
}

/// What is wrong with a board file, each with its code. The least code is told.
#[derive(Clone, Copy, Debug, PartialEq, Eq)]
pub enum BoardRule {
    /// 601: the file isn't TOML.
    NotToml,
    /// 602: the version is missing, or isn't 1.
    UnknownVersion,
    /// 603: a key that its table doesn't have.
    UnknownKey,
    /// 604: a key that is needed is missing, or there is no core, or an input's core has no interrupt controller.
    Missing,
    /// 605: a value of another type than the key's.
    WrongType,
    /// 606: a number outside its range, a kind of break that isn't known, a name that no row has, or too many rows.
    BadValue,
    /// 607: an output file that another output, an input or an image is, too.
    FileTwice,
    /// 608: a core that isn't there.
    UnknownCore,
    /// 609: a port of a core that another link uses, too.
    PortTwice,
    /// 610: a link that doesn't have at each end a file, or else a core with a port, or that has files at both ends.
    BadLink,
    /// 611: a pipeline that isn't known.
    UnknownPipeline,
    /// 612: an order of the cores that isn't known.
    UnknownOrder,
    /// 613: a base in the memory of its core, or of another device of the core, too.
    BadBase,
    /// 614: an input of an interrupt controller that another device uses, too, or a second controller of a core.
    InterruptTwice,
    /// 615: more cores than the version lets be, 16 or 64.
    TooManyCores,
    /// 616: more links than the version lets be, 64 or 256.
    TooManyLinks,
    /// 617: a device on a network board.
    DeviceOnNetwork,
    /// 618: an event on a network board.
    EventOnNetwork,
    /// 619: a size that no memory has, or memories of more than 1 GiB together.
    BadMemory,
    /// 620: a name that no file has.
    BadFileName,
}

impl BoardRule {
    /// The number that tells what is wrong, 601 to 620.
    pub fn code(self) -> u16
        ensures { result ≡ code_of self }
    {
        match self {
            BoardRule::NotToml => 601,
            BoardRule::UnknownVersion => 602,
            BoardRule::UnknownKey => 603,
            BoardRule::Missing => 604,
            BoardRule::WrongType => 605,
            BoardRule::BadValue => 606,
            BoardRule::FileTwice => 607,
            BoardRule::UnknownCore => 608,
            BoardRule::PortTwice => 609,
            BoardRule::BadLink => 610,
            BoardRule::UnknownPipeline => 611,
            BoardRule::UnknownOrder => 612,
            BoardRule::BadBase => 613,
            BoardRule::InterruptTwice => 614,
            BoardRule::TooManyCores => 615,
            BoardRule::TooManyLinks => 616,
            BoardRule::DeviceOnNetwork => 617,
            BoardRule::EventOnNetwork => 618,
            BoardRule::BadMemory => 619,
            BoardRule::BadFileName => 620,
        }
    }
}

/// A fault: what is wrong, and the path of the key at which it is, of which 64 bytes are kept.
#[derive(Drop)]
pub struct Fault {
    pub rule: BoardRule,
    pub place: Place,
}

impl Fault {
    /// The answer to a file whose least fault this is.
    pub fn refusal(self) -> BoardFault
        ensures { result ≡ refusal self }
    {
        BoardFault::Refused {
            code: self.rule.code(),
            place: self.place,
        }
    }
}

/// Whether a place comes before another in byte order.
pub fn is_earlier_place(place: &Place, other: &Place) -> bool
    ensures { result ≡ is_earlier place.now other.now }
{
    place.as_bytes().cmp(other.as_bytes()).is_lt()
}

fn is_before(fault: &Fault, other: &Fault) -> bool
    ensures { result ≡ comes_first fault.now other.now }
{
    let (code, before) = (fault.rule.code(), other.rule.code());
    code < before || code == before && is_earlier_place(&fault.place, &other.place)
}

/// Keeps the lesser of the fault that was found before and this one.
pub fn offer(best: &mut Option<Fault>, rule: BoardRule, place: Place)
    ensures { best.new ≡ lesser best.old (fault rule place) }
{
    let found = Fault { rule, place };
    match best {
        Some(before) if !is_before(&found, before) => {}
        _ => *best = Some(found),
    }
}

/// Offers a fault where something is wrong.
pub fn offer_some(best: &mut Option<Fault>, rule: Option<BoardRule>, place: Place)
    ensures { best.new ≡ least_after best.old (fault_at rule place) }
{
    if let Some(rule) = rule {
        offer(best, rule, place);
    }
}

/// Offers a fault where something isn't right.
pub fn offer_unless(best: &mut Option<Fault>, right: bool, rule: BoardRule, place: Place)
    ensures { best.new ≡ least_after best.old (fault_unless right rule place) }
{
    if !right {
        offer(best, rule, place);
    }
}
