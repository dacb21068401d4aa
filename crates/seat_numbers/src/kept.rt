// What each protocol remembers as the first eight numbers of its decoder, and what it remembers by any such numbers.
ghost use Rattle.std.specs.Prelude.{◌≡◌, ℕ, List, ◌%◌};
ghost use Rattle.seat_numbers.specs.Receiver.{nec_numbers, rc5_numbers, rc6_numbers, sbp_numbers, denon_numbers, guarded_numbers, memory_numbers};
ghost use Rattle.seat_numbers.specs.Receiver.{low_half, high_half, wide, nec_memory, rc5_memory, rc6_memory, sbp_memory, denon_memory, guarded_memory, memory_from};

use crate::states::{
    denon_from, denon_state, nec_from, nec_state, rc5_from, rc5_state, rc6_from, rc6_state,
    sbp_from, sbp_state,
};
use denon::decoder::DenonMemory;
use guarded::decoder::GuardedMemory;
use nec::decoder::NecMemory;
use protocols::decoder::Memory;
use rc5::decoder::Rc5Memory;
use rc6::decoder::Rc6Memory;
use reports::protocol::Numbered;
use sbp::decoder::SbpMemory;

pub(crate) trait Kept {
    ghost numbers_of: { Self → List ℕ };

    ghost memory_of: { List ℕ → Self };

    // The protocol's number, the two of the state, and what else is remembered.
    fn numbers(&self) -> [u32; 8]
        ensures { result ≡ numbers_of self.now };

    // Any numbers may be handed in.
    fn from_numbers(receiver: &[u32; 32]) -> Self
        ensures { result ≡ memory_of receiver.now };
}

fn low_half(number: u64) -> u32
    ensures { result ≡ low_half number }
{
    (number % 4294967296) as u32
}

fn high_half(number: u64) -> u32
    ensures { result ≡ high_half number }
{
    (number >> 32) as u32
}

fn wide(low: u32, high: u32) -> u64
    ensures { result ≡ wide low high }
{
    low as u64 + 4294967296 * high as u64
}

// Of a number that is wider than its field the low bits are taken.
fn low_16(number: u32) -> u16
    ensures { result ≡ number % 65536 }
{
    (number % 65536) as u16
}

impl Kept for NecMemory {
    ghost numbers_of = { nec_numbers };

    ghost memory_of = { nec_memory };

    fn numbers(&self) -> [u32; 8] {
        let (case, number) = nec_state(self.state);
        [Self::NUMBER, case, number, self.bits, self.saved, 0, 0, 0]
    }

    #[tactic(auto, unfolding(crate::specs::Receiver::nec_memory))]
    fn from_numbers(receiver: &[u32; 32]) -> NecMemory {
        NecMemory {
            state: nec_from(receiver[1], receiver[2]),
            bits: receiver[3],
            saved: receiver[4],
        }
    }
}

impl Kept for Rc5Memory {
    ghost numbers_of = { rc5_numbers };

    ghost memory_of = { rc5_memory };

    fn numbers(&self) -> [u32; 8] {
        let (case, number) = rc5_state(self.state);
        [
            Self::NUMBER,
            case,
            number,
            self.bits as u32,
            low_half(self.clock),
            high_half(self.clock),
            0,
            0,
        ]
    }

    #[tactic(auto, unfolding(crate::specs::Receiver::rc5_memory))]
    fn from_numbers(receiver: &[u32; 32]) -> Rc5Memory {
        Rc5Memory {
            state: rc5_from(receiver[1], receiver[2]),
            bits: low_16(receiver[3]),
            clock: wide(receiver[4], receiver[5]),
        }
    }
}

impl Kept for Rc6Memory {
    ghost numbers_of = { rc6_numbers };

    ghost memory_of = { rc6_memory };

    fn numbers(&self) -> [u32; 8] {
        let (case, number) = rc6_state(self.state);
        [
            Self::NUMBER,
            case,
            number,
            self.data as u32,
            self.header as u32,
            self.toggle as u32,
            low_half(self.clock),
            high_half(self.clock),
        ]
    }

    #[tactic(auto, unfolding(crate::specs::Receiver::rc6_memory))]
    fn from_numbers(receiver: &[u32; 32]) -> Rc6Memory {
        Rc6Memory {
            state: rc6_from(receiver[1], receiver[2]),
            data: low_16(receiver[3]),
            header: low_16(receiver[4]),
            toggle: receiver[5] == 1,
            clock: wide(receiver[6], receiver[7]),
        }
    }
}

impl Kept for SbpMemory {
    ghost numbers_of = { sbp_numbers };

    ghost memory_of = { sbp_memory };

    fn numbers(&self) -> [u32; 8] {
        let (case, number) = sbp_state(self.state);
        [
            Self::NUMBER,
            case,
            number,
            self.address as u32,
            self.command,
            self.saved,
            0,
            0,
        ]
    }

    #[tactic(auto, unfolding(crate::specs::Receiver::sbp_memory))]
    fn from_numbers(receiver: &[u32; 32]) -> SbpMemory {
        SbpMemory {
            state: sbp_from(receiver[1], receiver[2]),
            address: low_16(receiver[3]),
            command: receiver[4],
            saved: receiver[5],
        }
    }
}

impl Kept for DenonMemory {
    ghost numbers_of = { denon_numbers };

    ghost memory_of = { denon_memory };

    fn numbers(&self) -> [u32; 8] {
        let (case, number) = denon_state(self.state);
        [
            Self::NUMBER,
            case,
            number,
            low_half(self.bits),
            high_half(self.bits),
            self.saved,
            0,
            0,
        ]
    }

    #[tactic(auto, unfolding(crate::specs::Receiver::denon_memory))]
    fn from_numbers(receiver: &[u32; 32]) -> DenonMemory {
        DenonMemory {
            state: denon_from(receiver[1], receiver[2]),
            bits: wide(receiver[3], receiver[4]),
            saved: receiver[5],
        }
    }
}

// NEC's own numbers, and two more.
impl Kept for GuardedMemory {
    ghost numbers_of = { guarded_numbers };

    ghost memory_of = { guarded_memory };

    fn numbers(&self) -> [u32; 8] {
        let [protocol, case, number, bits, saved, ..] = self.nec.numbers();
        [protocol, case, number, bits, saved, 1, self.mark as u32, 0]
    }

    fn from_numbers(receiver: &[u32; 32]) -> GuardedMemory {
        GuardedMemory {
            mark: receiver[6] == 1,
            nec: NecMemory::from_numbers(receiver),
        }
    }
}

impl Kept for Memory {
    ghost numbers_of = { memory_numbers };

    ghost memory_of = { memory_from };

    fn numbers(&self) -> [u32; 8] {
        match self {
            Memory::Nec(m) => m.numbers(),
            Memory::Rc5(m) => m.numbers(),
            Memory::Rc6(m) => m.numbers(),
            Memory::Sbp(m) => m.numbers(),
            Memory::Denon(m) => m.numbers(),
            Memory::Guarded(m) => m.numbers(),
        }
    }

    // NEC in guarded mode where place 5 is 1, and else plain.
    fn from_numbers(receiver: &[u32; 32]) -> Memory {
        match receiver[0] {
            2 => Memory::Rc5(Rc5Memory::from_numbers(receiver)),
            3 => Memory::Rc6(Rc6Memory::from_numbers(receiver)),
            4 => Memory::Sbp(SbpMemory::from_numbers(receiver)),
            5 => Memory::Denon(DenonMemory::from_numbers(receiver)),
            _ if receiver[5] == 1 => Memory::Guarded(GuardedMemory::from_numbers(receiver)),
            _ => Memory::Nec(NecMemory::from_numbers(receiver)),
        }
    }
}
