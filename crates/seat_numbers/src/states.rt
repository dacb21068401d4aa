// The state of each protocol as two numbers: its case, and its bit counter or the number of its fault. Any two numbers are a state: a case past the last is the first.
ghost use Rattle.std.specs.Prelude.{◌≡◌, ◌%◌};
ghost use Rattle.seat_numbers.specs.Receiver.{nec_state, rc5_state, rc6_state, sbp_state, denon_state};
ghost use Rattle.seat_numbers.specs.Receiver.{fault_from, nec_from, rc5_from, rc6_from, sbp_from, denon_from};

use denon::decoder::DenonState;
use nec::decoder::NecState;
use rc5::decoder::Rc5State;
use rc6::decoder::Rc6State;
use reports::{Fault, fault_number};
use sbp::decoder::SbpState;

fn fault_from(number: u32) -> Fault
    ensures { result ≡ fault_from number }
{
    if number == 1 {
        Fault::Address
    } else {
        Fault::Data
    }
}

pub(crate) fn nec_state(state: NecState) -> (u32, u32)
    ensures { result ≡ nec_state state }
{
    match state {
        NecState::Init => (0, 0),
        NecState::Receiving(n) => (1, n),
        NecState::Done => (2, 0),
        NecState::RepeatDone => (3, 0),
        NecState::Error(fault) => (4, fault_number(fault)),
    }
}

pub(crate) fn nec_from(case: u32, number: u32) -> NecState
    ensures { result ≡ nec_from case number }
{
    match case {
        1 => NecState::Receiving(number),
        2 => NecState::Done,
        3 => NecState::RepeatDone,
        4 => NecState::Error(fault_from(number)),
        _ => NecState::Init,
    }
}

pub(crate) fn rc5_state(state: Rc5State) -> (u32, u32)
    ensures { result ≡ rc5_state state }
{
    match state {
        Rc5State::Idle => (0, 0),
        Rc5State::Data(n) => (1, n as u32),
        Rc5State::Done => (2, 0),
        Rc5State::Error(fault) => (3, fault_number(fault)),
    }
}

pub(crate) fn rc5_from(case: u32, number: u32) -> Rc5State
    ensures { result ≡ rc5_from case number }
{
    match case {
        1 => Rc5State::Data((number % 256) as u8),
        2 => Rc5State::Done,
        3 => Rc5State::Error(fault_from(number)),
        _ => Rc5State::Idle,
    }
}

pub(crate) fn rc6_state(state: Rc6State) -> (u32, u32)
    ensures { result ≡ rc6_state state }
{
    match state {
        Rc6State::Idle => (0, 0),
        Rc6State::Leading => (1, 0),
        Rc6State::LeadingPause => (2, 0),
        Rc6State::HeaderData(n) => (3, n),
        Rc6State::Trailing => (4, 0),
        Rc6State::Data(n) => (5, n),
        Rc6State::Done => (6, 0),
        Rc6State::Error(fault) => (7, fault_number(fault)),
    }
}

pub(crate) fn rc6_from(case: u32, number: u32) -> Rc6State
    ensures { result ≡ rc6_from case number }
{
    match case {
        1 => Rc6State::Leading,
        2 => Rc6State::LeadingPause,
        3 => Rc6State::HeaderData(number),
        4 => Rc6State::Trailing,
        5 => Rc6State::Data(number),
        6 => Rc6State::Done,
        7 => Rc6State::Error(fault_from(number)),
        _ => Rc6State::Idle,
    }
}

pub(crate) fn sbp_state(state: SbpState) -> (u32, u32)
    ensures { result ≡ sbp_state state }
{
    match state {
        SbpState::Init => (0, 0),
        SbpState::Address(n) => (1, n as u32),
        SbpState::Divider => (2, 0),
        SbpState::Command(n) => (3, n as u32),
        SbpState::Done => (4, 0),
        SbpState::Error(fault) => (5, fault_number(fault)),
    }
}

pub(crate) fn sbp_from(case: u32, number: u32) -> SbpState
    ensures { result ≡ sbp_from case number }
{
    match case {
        1 => SbpState::Address((number % 65536) as u16),
        2 => SbpState::Divider,
        3 => SbpState::Command((number % 65536) as u16),
        4 => SbpState::Done,
        5 => SbpState::Error(fault_from(number)),
        _ => SbpState::Init,
    }
}

pub(crate) fn denon_state(state: DenonState) -> (u32, u32)
    ensures { result ≡ denon_state state }
{
    match state {
        DenonState::Idle => (0, 0),
        DenonState::Data(n) => (1, n as u32),
        DenonState::Done => (2, 0),
    }
}

pub(crate) fn denon_from(case: u32, number: u32) -> DenonState
    ensures { result ≡ denon_from case number }
{
    match case {
        1 => DenonState::Data((number % 256) as u8),
        2 => DenonState::Done,
        _ => DenonState::Idle,
    }
}
