// The checks that come before the group, in their order: what a message comes to.
#![tactic(auto)]

ghost use Rattle.std.specs.Prelude.{◌≡◌};
ghost use Rattle.plan.specs.Plan.{block_plan, call_plan, iocb_of, plan_in};

use blocks::{BlockState, ControlBlock};
use commands::Command;
use plan::{After, Errand, Plan, Work};
use wire::{Call, Message};

fn block_plan(command: Command, block: ControlBlock, call: Call, half: &[u8]) -> Plan
    ensures { result ≡ block_plan command block.state call half.now }
{
    let state = block.state;
    match command {
        Command::Bad => Plan::Free(Errand::Status(0x84, call.a)),
        Command::Open => match state {
            BlockState::Closed => plan::open_plan(After::Stay, half, call),
            BlockState::Open {
                device,
                number,
                aux1,
            } => Plan::Free(Errand::Status(0x81, call.a)),
        },
        Command::Close => match state {
            BlockState::Closed => Plan::Free(Errand::Status(0x01, call.a)),
            BlockState::Open {
                device,
                number,
                aux1,
            } => plan::planned(device, Work::Close, call),
        },
        Command::Status => match state {
            BlockState::Closed => plan::open_plan(After::Status, half, call),
            BlockState::Open {
                device,
                number,
                aux1,
            } => plan::planned(device, Work::Status, call),
        },
        Command::Special => match state {
            BlockState::Closed => plan::open_plan(After::Special, half, call),
            BlockState::Open {
                device,
                number,
                aux1,
            } => plan::planned(device, Work::Special, call),
        },
        Command::Transfer { reads, records } => match state {
            BlockState::Closed => Plan::Free(Errand::Status(0x85, call.a)),
            BlockState::Open {
                device,
                number,
                aux1,
            } => plan::transfer_plan(reads, records, device, aux1, call),
        },
    }
}

// A CALL, with the block of its IOCB.
fn call_plan(call: Call, block: ControlBlock, half: &[u8]) -> Plan
    ensures { result ≡ call_plan call block half.now }
{
    if 7 < call.iocb {
        return Plan::Free(Errand::Status(0x86, call.a));
    }
    let command = commands::command_of(call.command);
    block_plan(command, block, call, half)
}

// The IOCB that a message names; past the table where it names none.
pub fn iocb_of(message: Message) -> u8
    ensures { result ≡ iocb_of message }
{
    match message {
        Message::Call(call) => call.iocb,
        Message::Load { address, size } => 8,
        Message::Fetch { address, count } => 8,
        Message::Bad(status) => 8,
    }
}

// A message, with the block of the IOCB that it names.
pub fn plan_in(message: Message, block: ControlBlock, half: &[u8]) -> Plan
    ensures { result ≡ plan_in message block half.now }
{
    match message {
        Message::Call(call) => call_plan(call, block, half),
        Message::Load { address, size } => Plan::Free(Errand::Load { address, size }),
        Message::Fetch { address, count } => Plan::Free(Errand::Fetch { address, count }),
        Message::Bad(status) => Plan::Free(Errand::Bad(status)),
    }
}
