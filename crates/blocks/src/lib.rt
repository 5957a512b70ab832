// A port's own state by value: its eight control blocks and its phase. And what an OPEN reads before any device is asked: its
// device specification, and whether the device offers its AUX1.
#![tactic(auto)]

ghost use Rattle.std.specs.Prelude.{◌≡◌, ◌+◌};
ghost use Rattle.blocks.specs.Blocks.{closed_table, fresh_gather, fresh_port};
ghost use Rattle.blocks.specs.Opening.{error_status, device_of, highest_of, needed_byte, colon_of, number_of, named_of, specification_of, reads, writes, offers_of};

// The bytes of a port's own area.
pub const AREA: usize = 16384;

#[derive(Clone, Copy)]
pub enum Device {
    E,
    S,
    K,
    P,
    C,
    D,
}

// No Option: document 01 asks for an enum with the open case's data (docs/DECISIONS.md, "Forms").
#[derive(Clone, Copy)]
pub enum BlockState {
    Closed,
    Open {
        device: Device,
        number: u8,
        aux1: u8,
    },
}

#[derive(Clone, Copy)]
pub struct ControlBlock {
    pub state: BlockState,
}

impl ControlBlock {
    // The closed block, named once.
    pub const CLOSED: ControlBlock = ControlBlock {
        state: BlockState::Closed,
    };
}

// A port's control blocks, IOCBs 0 to 7.
#[derive(Clone, Copy)]
pub struct Table {
    pub blocks: [ControlBlock; 8],
}

// How much a transfer moves: one character by A (length 0), so many characters, or a record.
#[derive(Clone, Copy)]
pub enum Way {
    One,
    Characters,
    Record,
}

// What a running request transfers, and in which direction.
#[derive(Clone, Copy)]
pub enum Kind {
    Get(Way),
    Put(Way),
}

// A message of which some bytes are taken; `taken` counts the header's three too.
#[derive(Clone, Copy)]
pub struct Gather {
    pub tag: u8,
    pub length: u16,
    pub taken: u32,
}

// A ready message's header.
#[derive(Clone, Copy)]
pub struct Header {
    pub tag: u8,
    pub length: u16,
}

// A running request: characters still to go, the area's next address, and how many are stored or taken so far.
#[derive(Clone, Copy)]
pub struct Run {
    pub kind: Kind,
    pub device: Device,
    pub iocb: u8,
    pub left: u16,
    pub place: u16,
    pub count: u16,
    pub a: u8,
}

// A reply: all its bytes, and how many are given.
#[derive(Clone, Copy)]
pub struct Reply {
    pub length: u16,
    pub given: u16,
}

#[derive(Clone, Copy)]
pub enum Phase {
    Gathering(Gather),
    Ready(Header),
    Running(Run),
    Replying(Reply),
}

#[derive(Clone, Copy)]
pub struct Port {
    pub table: Table,
    pub phase: Phase,
}

impl Table {
    // Eight closed blocks.
    pub fn closed() -> Table
        ensures { result ≡ closed_table }
    {
        Table {
            blocks: [ControlBlock::CLOSED; 8],
        }
    }
}

impl Gather {
    // No byte taken.
    pub fn fresh() -> Gather
        ensures { result ≡ fresh_gather }
    {
        Gather {
            tag: 0,
            length: 0,
            taken: 0,
        }
    }
}

impl Port {
    // A port that gathers with no byte taken, its blocks closed.
    pub fn fresh() -> Port
        ensures { result ≡ fresh_port }
    {
        Port {
            table: Table::closed(),
            phase: Phase::Gathering(Gather::fresh()),
        }
    }
}

// A device specification: a device and its number.
#[derive(Clone, Copy)]
pub struct Specification {
    pub device: Device,
    pub number: u8,
}

// Why bytes are none: an unknown letter, or no colon where one has to stand; or a needed byte past the area.
#[derive(Clone, Copy)]
pub enum SpecificationError {
    Malformed,
    Past,
}

impl From<SpecificationError> for u8 {
    // The status of the refusal.
    fn from(error: SpecificationError) -> u8
        ensures { result ≡ error_status error }
    {
        match error {
            SpecificationError::Malformed => 0x82,
            SpecificationError::Past => 0xB0,
        }
    }
}

// The device that a letter names.
#[tactic(auto, using(base::proofs::Tests::tests), unfolding(crate::specs::Opening::device_of))]
pub fn device_of(byte: u8) -> Option<Device>
    ensures { result ≡ device_of byte }
{
    match byte {
        b'E' => Some(Device::E),
        b'S' => Some(Device::S),
        b'K' => Some(Device::K),
        b'P' => Some(Device::P),
        b'C' => Some(Device::C),
        b'D' => Some(Device::D),
        _ => None,
    }
}

// A byte of the port's own half that has to be there.
fn needed(half: &[u8], place: usize) -> Result<u8, SpecificationError>
    ensures { result ≡ needed_byte half.now place }
{
    if AREA <= place {
        return Err(SpecificationError::Past);
    }
    Ok(base::byte_at(half, place))
}

// The colon that ends a specification.
fn colon_of(device: Device, number: u8, byte: u8) -> Result<Specification, SpecificationError>
    ensures { result ≡ colon_of device number byte }
{
    if byte == b':' {
        return Ok(Specification { device, number });
    }
    Err(SpecificationError::Malformed)
}

// The digit of a device's highest number.
fn last_digit(device: Device) -> u8
    ensures { result ≡ 0x30 + highest_of device }
{
    match device {
        Device::E => b'8',
        Device::S => b'8',
        Device::K => b'8',
        Device::P => b'8',
        Device::C => b'8',
        Device::D => b'4',
    }
}

// Behind the letter at an address: a digit and the colon, or the colon alone. The byte is the one behind the letter.
fn number_of(
    half: &[u8],
    device: Device,
    address: u16,
    byte: u8,
) -> Result<Specification, SpecificationError>
    ensures { result ≡ number_of half.now device (address + 2) byte }
{
    if byte < b'1' {
        return colon_of(device, 1, byte);
    }
    if last_digit(device) < byte {
        return colon_of(device, 1, byte);
    }
    let colon = needed(half, address as usize + 2)?;
    colon_of(device, byte - b'0', colon)
}

// What follows the letter at an address.
fn named_of(
    half: &[u8],
    letter: Option<Device>,
    address: u16,
) -> Result<Specification, SpecificationError>
    ensures { result ≡ named_of half.now letter (address + 1) }
{
    let Some(device) = letter else {
        return Err(SpecificationError::Malformed);
    };
    let byte = needed(half, address as usize + 1)?;
    number_of(half, device, address, byte)
}

// The device specification at an address of the port's own half.
pub fn specification_at(half: &[u8], address: u16) -> Result<Specification, SpecificationError>
    ensures { result ≡ specification_of half.now address }
{
    let letter = needed(half, address as usize)?;
    named_of(half, device_of(letter), address)
}

// AUX1's R.
pub fn aux1_reads(aux1: u8) -> bool
    ensures { result ≡ reads aux1 }
{
    aux1 / 4 % 2 == 1
}

// AUX1's W.
pub fn aux1_writes(aux1: u8) -> bool
    ensures { result ≡ writes aux1 }
{
    aux1 / 8 % 2 == 1
}

// Whether the device offers all that AUX1 asks.
pub fn offers(device: Device, aux1: u8) -> bool
    ensures { result ≡ offers_of device aux1 }
{
    match device {
        Device::E => {
            if aux1_reads(aux1) {
                return aux1 % 2 == 1;
            }
            true
        }
        Device::S => true,
        Device::K => !aux1_writes(aux1),
        Device::P => !aux1_reads(aux1),
        Device::C => {
            let reading = aux1_reads(aux1);
            if reading {
                return !aux1_writes(aux1);
            }
            true
        }
        Device::D => !aux1_writes(aux1),
    }
}
