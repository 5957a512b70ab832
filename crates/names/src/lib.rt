// File names: a name read from an area, the pattern of eleven bytes that it comes to, and whether an entry's name matches it.
#![tactic(auto)]

ghost use Rattle.std.specs.Prelude.{◌≡◌, ◌+◌, ◌-◌, ◌<◌, ◌≤◌, length, drop};
ghost use Rattle.base.specs.Parts.{part};
ghost use Rattle.names.specs.Names.{no_name, may_stand, CutIn, cut_of, field_at, name_of, extended_by, named_in, places_match};

// Eight bytes of a name and three of its extension.
pub type Pattern = [u8; 11];

// Why no name is read: the area ends before it does, or it has a byte that no name has.
#[derive(Clone, Copy)]
pub enum NameError {
    Past,
    Bad,
}

// What ends a field, and where: a dot, or the name's end.
#[derive(Clone, Copy)]
pub enum Cut {
    Dot(usize),
    End(usize),
}

// Of a device that has no names.
pub fn none() -> Pattern
    ensures { result ≡ no_name }
{
    [0; 11]
}

// A letter, a digit, * or ?.
fn may_stand(byte: u8) -> bool
    ensures { result ≡ may_stand byte }
{
    matches!(byte, b'A'..=b'Z' | b'0'..=b'9' | b'*' | b'?')
}

// The end of a field that begins at `from`.
fn field_end(half: &[u8], from: usize) -> Result<Cut, NameError>
    ensures { CutIn half.now from result }
{
    for at in from..half.len() {
        let byte = half[at];
        if byte == 0x9B {
            return Ok(Cut::End(at));
        }
        if byte == b' ' {
            return Ok(Cut::End(at));
        }
        if byte == b'.' {
            return Ok(Cut::Dot(at));
        }
        if !may_stand(byte) {
            return Err(NameError::Bad);
        }
    }
    Err(NameError::Past)
}

// The byte at a place of the field from `from` to `end`, filled up: blank behind its last, and ? from a * on.
fn field_at(half: &[u8], from: usize, end: usize, place: usize) -> u8
    requires { end ≤ length half.now }
    ensures { result ≡ field_at (part from (end - from) half.now) place }
{
    for at in from..end {
        let byte = half[at];
        if byte == b'*' {
            return b'?';
        }
        if at - from == place {
            return byte;
        }
    }
    b' '
}

// The pattern of a name from `from` to `dot`, and of its extension from `begin` to `end`.
fn fill(half: &[u8], from: usize, dot: usize, begin: usize, end: usize) -> Pattern
    requires { (dot ≤ length half.now) × (end ≤ length half.now) }
    ensures { result ≡ name_of (part from (dot - from) half.now) (part begin (end - begin) half.now) }
{
    let mut pattern = [0; 11];
    for place in 0..8 {
        pattern[place] = field_at(half, from, dot, place);
    }
    for place in 0..3 {
        pattern[8 + place] = field_at(half, begin, end, place);
    }
    pattern
}

// What follows a name's dot.
fn extended(half: &[u8], from: usize, dot: usize) -> Result<Pattern, NameError>
    requires { dot < length half.now }
    ensures { result ≡ extended_by (part from (dot - from) half.now) (cut_of (drop (dot + 1) half.now)) }
{
    match field_end(half, dot + 1)? {
        Cut::Dot(_) => Err(NameError::Bad),
        Cut::End(at) => Ok(fill(half, from, dot, dot + 1, at)),
    }
}

// The name that begins at a place of the port's own half.
#[tactic(auto, unfolding(crate::specs::Names::named_in))]
pub fn name_at(half: &[u8], place: usize) -> Result<Pattern, NameError>
    ensures { result ≡ named_in (drop place half.now) }
{
    match field_end(half, place)? {
        Cut::Dot(at) => extended(half, place, at),
        Cut::End(at) => Ok(fill(half, place, at, at, at)),
    }
}

// The eleven bytes from a place on match the pattern.
pub fn matches(pattern: &Pattern, lent: &[u8], place: u32) -> bool
    ensures { result ≡ places_match pattern.now lent.now place }
{
    for (at, letter) in pattern.iter().enumerate() {
        if *letter != b'?' && *letter != base::byte_at(lent, place as usize + at) {
            return false;
        }
    }
    true
}
