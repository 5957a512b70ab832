// What the checks before the group come to: a status at once, or work on a device; the checks of a specification and of a buffer.
#![tactic(auto)]

ghost use Rattle.std.specs.Prelude.{◌≡◌};
ghost use Rattle.blocks.specs.Opening.{specification_of};
ghost use Rattle.plan.specs.Plan.{planned_of, name_of, has_names, named_for, named_plan, open_plan, area_plan, transfer_plan, group_needed};

use blocks::{Device, Kind, Specification};
use devices::Group;
use names::{NameError, Pattern};
use wire::Call;

// What follows an opening: the block stays open, or GET STATUS or SPECIAL answers and it is closed again.
#[derive(Clone, Copy)]
pub enum After {
    Stay,
    Status,
    Special,
}

// What is done with the group held; of an opening also the device's number, and the pattern of the name behind the colon, none where a
// byte of it is bad.
#[derive(Clone, Copy)]
pub enum Work {
    Close,
    Status,
    Special,
    Open(After, u8, Option<Pattern>),
    Transfer(Kind),
}

// A CALL's work on its device.
#[derive(Clone, Copy)]
pub struct Job {
    pub device: Device,
    pub work: Work,
    pub call: Call,
}

// What needs no group: a CALL's status and A, LOAD, FETCH, or a bad message's status.
#[derive(Clone, Copy)]
pub enum Errand {
    Status(u8, u8),
    Load { address: u16, size: u16 },
    Fetch { address: u16, count: u16 },
    Bad(u8),
}

#[derive(Clone, Copy)]
pub enum Plan {
    Free(Errand),
    On(Job),
}

// Work on a device.
pub fn planned(device: Device, work: Work, call: Call) -> Plan
    ensures { result ≡ planned_of device work call }
{
    let job = Job {
        device: device,
        work: work,
        call: call,
    };
    Plan::On(job)
}

// Where what follows a specification's colon begins.
#[tactic(auto, unfolding(crate::specs::Plan::name_of))]
fn name_at(half: &[u8], address: u16) -> u32
    ensures { result ≡ name_of half.now address }
{
    if base::byte_at(half, address as usize + 1) == b':' {
        return address as u32 + 2;
    }
    address as u32 + 3
}

// D alone has names.
fn has_names(device: Device) -> bool
    ensures { result ≡ has_names device }
{
    matches!(device, Device::D)
}

// The name behind the colon, of a device that has names.
#[tactic(auto, unfolding(crate::specs::Plan::named_for))]
fn named_for(device: Device, half: &[u8], address: u16) -> Result<Pattern, NameError>
    ensures { result ≡ named_for device half.now address }
{
    if has_names(device) {
        let place = name_at(half, address);
        return names::name_at(half, place as usize);
    }
    Ok(names::none())
}

// An opening of a device, whose name ends in the area.
fn named_plan(
    after: After,
    device: Device,
    number: u8,
    named: Result<Pattern, NameError>,
    call: Call,
) -> Plan
    ensures { result ≡ named_plan after device number named call }
{
    match named {
        Err(NameError::Past) => Plan::Free(Errand::Status(0xB0, call.a)),
        Err(NameError::Bad) => planned(device, Work::Open(after, number, None), call),
        Ok(pattern) => planned(device, Work::Open(after, number, Some(pattern)), call),
    }
}

// An opening by its device specification.
pub fn open_plan(after: After, half: &[u8], call: Call) -> Plan
    ensures { result ≡ open_plan after (specification_of half.now call.address) half.now call }
{
    let specification = blocks::specification_at(half, call.address);
    match specification {
        Err(error) => Plan::Free(Errand::Status(u8::from(error), call.a)),
        Ok(Specification { device, number }) => {
            let named = named_for(device, half, call.address);
            named_plan(after, device, number, named, call)
        }
    }
}

// The buffer is in the area, or is not looked at.
#[tactic(auto, unfolding(crate::specs::Plan::area_plan))]
fn area_plan(reads: bool, records: bool, device: Device, call: Call) -> Plan
    ensures { result ≡ area_plan reads records device call }
{
    let length = call.length;
    let kind = commands::transfer_kind(reads, records, length);
    let work = Work::Transfer(kind);
    if length == 0 {
        return planned(device, work, call);
    }
    if call.address as usize + length as usize <= blocks::AREA {
        return planned(device, work, call);
    }
    Plan::Free(Errand::Status(0xB0, call.a))
}

// The direction is one that the block was opened for.
#[tactic(auto, unfolding(crate::specs::Plan::transfer_plan))]
pub fn transfer_plan(reads: bool, records: bool, device: Device, aux1: u8, call: Call) -> Plan
    ensures { result ≡ transfer_plan reads records device aux1 call }
{
    if reads {
        if blocks::aux1_reads(aux1) {
            return area_plan(reads, records, device, call);
        }
        return Plan::Free(Errand::Status(0x83, call.a));
    }
    if blocks::aux1_writes(aux1) {
        return area_plan(reads, records, device, call);
    }
    Plan::Free(Errand::Status(0x87, call.a))
}

// The group that a plan needs.
pub fn group_needed(plan: Plan) -> Group
    ensures { result ≡ group_needed plan }
{
    match plan {
        Plan::Free(errand) => Group::Nobody,
        Plan::On(job) => {
            let device = job.device;
            devices::group_of(device)
        }
    }
}
