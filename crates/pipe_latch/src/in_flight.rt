//! Results that are not yet in the register file.

ghost use Rattle.std.specs.Prelude.{◌≡◌, ℕ, ◌<◌, ◌≤◌, ◌+◌, ◌-◌, ◌==◌, ◌&&◌, [], ◌++◌, IfSome, map, slice_get};
ghost use Rattle.std.specs.List.{find};
ghost use Rattle.arrayvec.specs.ArrayVec.{array_vec_len};
ghost use Rattle.core_regs.specs.State.{reg};
ghost use Rattle.mb_decode.specs.Meaning.{NamesRegisters};
ghost use Rattle.isa_step.specs.Requests.{operands_of};
ghost use Rattle.core_iface.specs.Flights.{applied, begun, flights_aged, file_aged, older};
ghost use Rattle.pipe_latch.specs.Latches.{InStages, IsFree, flight_of, flown, youngest};

use arrayvec::ArrayVec;
use core_iface::Flight;
use core_regs::Write;
use isa_step::{Here, Operands};

/// A stage behind execution, and the result that it holds, if it holds one.
#[derive(Clone, Copy)]
pub struct Stage {
    pub(crate) is_full: bool,
    pub(crate) reg: u8,
    pub(crate) value: u32,
}

/// A stage that holds no result.
pub(crate) const EMPTY: Stage = Stage {
    is_full: false,
    reg: 0,
    value: 0,
};

/// How many stages lie at most between execution and the register file.
const STAGES: usize = 5;

/// The results in flight.
#[derive(Drop)]
pub struct Flights {
    /// The stages that a result passes, each in a tick.
    pub(crate) stages: [Stage; STAGES],
}

/// Adds the result of a stage to a list.
fn add(list: &mut ArrayVec<Flight, 8>, stage: Stage, age: usize)
    requires age { age < 5 }
    requires room { array_vec_len list.old < 8 }
    ensures list { list.new.items ≡ list.old.items ++ flight_of stage age }
    ensures room { array_vec_len list.new ≤ array_vec_len list.old + 1 }
{
    if !stage.is_full {
        return;
    }
    list.push(Flight {
        reg: stage.reg,
        value: stage.value,
        age: age as u8,
    });
}

/// What stages hold when each result has gone on to the next.
#[inline(always)]
fn shifted(stages: &[Stage; STAGES]) -> [Stage; STAGES]
    requires { InStages 4 0 stages.now }
    ensures flights { flown 0 result ≡ map older (flown 0 stages.now) }
    ensures stages { (depth : ℕ) → InStages depth 0 stages.now → InStages (depth + 1) 0 result }
    ensures free { IsFree result }
{
    [EMPTY, stages[0], stages[1], stages[2], stages[3]]
}

impl Flights {
    /// No result is in flight.
    pub fn new() -> Flights
        ensures flights { flown 0 result.stages ≡ [] }
        ensures stages { (depth : ℕ) → InStages depth 0 result.stages }
    {
        Flights {
            stages: [EMPTY; STAGES],
        }
    }

    /// The results, the oldest first.
    fn list(&self) -> ArrayVec<Flight, 8>
        ensures { result.items ≡ flown 0 self.now.stages }
    {
        let mut list = ArrayVec::new();
        let mut age = STAGES;
        while age > 0 {
            age -= 1;
            add(&mut list, self.stages[age], age);
        }
        list
    }

    /// A result, counted from the oldest.
    pub fn flight(&self, k: usize) -> Option<Flight>
        ensures { result ≡ slice_get (flown 0 self.now.stages) k }
    {
        self.list().get(k).copied()
    }

    /// The first stage that holds a result for a register.
    fn found(&self, reg: u8) -> Option<Stage>
        ensures { result ≡ find (λ s. s.is_full && s.reg == reg) self.now.stages }
    {
        self.stages
            .iter()
            .copied()
            .find(|stage| stage.is_full && stage.reg == reg)
    }

    /// The value of the youngest result for a register.
    pub fn forward(&self, reg: u8) -> Option<u32>
        ensures { result ≡ youngest (flown 0 self.now.stages) reg }
    {
        match self.found(reg) {
            Some(stage) => Some(stage.value),
            None => None,
        }
    }

    /// The value of a register, by its youngest result or the register file.
    #[tactic(auto, using(crate::proofs::FlightLemmas::read_youngest, crate::proofs::FlightLemmas::read_file))]
    pub fn read(&self, file: &[u32; 32], n: u8) -> u32
        requires { n < 32 }
        ensures { result ≡ reg (applied (flown 0 self.now.stages) file.now) n }
    {
        if n == 0 {
            return 0;
        }
        match self.forward(n) {
            Some(value) => value,
            None => file[n as usize],
        }
    }

    /// The operands of the instruction at pc.
    pub fn operands(&self, file: &[u32; 32], here: &Option<Here>) -> Operands
        requires { IfSome here.now (λ here. IfSome here.instr NamesRegisters) }
        ensures { result ≡ operands_of here.now (applied (flown 0 self.now.stages) file.now) }
    {
        match here {
            Some(Here { instr: Some(i), .. }) => Operands {
                a: self.read(file, i.ra),
                b: self.read(file, i.rb),
                d: self.read(file, i.rd),
            },
            _ => Operands { a: 0, b: 0, d: 0 },
        }
    }

    /// The result in the last stage before the register file lands there.
    #[inline(always)]
    fn land(&mut self, depth: u8, file: &mut [u32; 32])
        requires depth { (1 ≤ depth) × (depth ≤ 5) }
        requires stages { InStages depth 0 self.old.stages }
        ensures flights { map older (flown 0 self.new.stages) ≡ flights_aged depth (flown 0 self.old.stages) }
        ensures file { file.new ≡ file_aged depth (flown 0 self.old.stages) file.old }
        ensures stages { InStages (depth - 1) 0 self.new.stages }
    {
        let place = depth as usize - 1;
        let last = self.stages[place];
        if !last.is_full {
            return;
        }
        self.stages[place] = EMPTY;
        file[last.reg as usize] = last.value;
    }

    /// Each result goes on to the next stage.
    #[inline(always)]
    fn shift(&mut self)
        requires { InStages 4 0 self.old.stages }
        ensures flights { flown 0 self.new.stages ≡ map older (flown 0 self.old.stages) }
        ensures stages { (depth : ℕ) → InStages depth 0 self.old.stages → InStages (depth + 1) 0 self.new.stages }
        ensures free { IsFree self.new.stages }
    {
        self.stages = shifted(&self.stages);
    }

    /// Each result grows older, and one that reaches the depth is written to the register file.
    #[inline(always)]
    pub fn advance(&mut self, depth: u8, file: &mut [u32; 32])
        requires depth { (1 ≤ depth) × (depth ≤ 5) }
        requires stages { InStages depth 0 self.old.stages }
        ensures flights { flown 0 self.new.stages ≡ flights_aged depth (flown 0 self.old.stages) }
        ensures file { file.new ≡ file_aged depth (flown 0 self.old.stages) file.old }
        ensures stages { InStages depth 0 self.new.stages }
        ensures free { IsFree self.new.stages }
    {
        self.land(depth, file);
        self.shift();
    }

    /// A result begins its flight.
    #[inline(always)]
    pub fn begin(&mut self, write: Option<Write>)
        requires free { IsFree self.old.stages }
        requires named { IfSome write (λ w. w.reg < 32) }
        ensures flights { flown 0 self.new.stages ≡ flown 0 self.old.stages ++ begun write }
        ensures stages { (depth : ℕ) → 1 ≤ depth → InStages depth 0 self.old.stages → InStages depth 0 self.new.stages }
    {
        let Some(write) = write else {
            return;
        };
        self.stages[0] = Stage {
            is_full: true,
            reg: write.reg,
            value: write.value,
        };
    }
}
