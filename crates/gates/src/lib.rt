// What the codes of a moment say: a gate's answer, a row of gates, and the counts of their kinds. Every public function is
// total: what no accepted header allows, as a scale of 0, has an answer too, which its definition gives.
#![tactic(auto)]

ghost use Rattle.std.specs.Prelude.{◌≡◌, [], ◌∷◌, map, ◌+◌, ◌*◌, ◌^◌, ◌≤◌, ◌<◌, length, get_or};
ghost use Rattle.gates.specs.Gates.{difference_of, float_of, is_measurement, other_of, gate_of, told_gate, kind_of, magnitude_of, hundredths_of, told_of, values_of};
ghost use Rattle.gates.specs.Codes.{codes_of};
ghost use Rattle.gates.specs.Rows.{Tabled, Rowed};
ghost use Rattle.gates.specs.Counting.{counts_of, summed, total_of};

use refusal::Refusal;

// What a moment's header says of its codes. A scale and an offset that the header's rules allow fit 16 bits, as codes
// do, so every whole number here fits its type.
#[derive(Clone, Copy)]
pub struct Coding {
    pub data_type: u32,
    pub scale: u16,
    pub offset: u16,
}

// ---- a gate

#[derive(Clone, Copy)]
pub enum Gate {
    BelowThreshold,
    RangeFolded,
    NotScanned,
    Unknown,
    Reserved,
    Value(f64),
    Class(u16),
}

impl Gate {
    // The number by which a row shows a value.
    pub const VALUE: u8 = 5;

    // The number by which a row shows the gate.
    pub fn kind(self) -> u8
        ensures { result ≡ (told_gate self).0 }
    {
        match self {
            Gate::BelowThreshold => 0,
            Gate::RangeFolded => 1,
            Gate::NotScanned => 2,
            Gate::Unknown => 3,
            Gate::Reserved => 4,
            Gate::Value(_) => Gate::VALUE,
            Gate::Class(_) => 6,
        }
    }
}

// The formula's functions are private, so that no special code is put through it from outside.
fn difference(c: Coding, code: u16) -> i32
    ensures { result ≡ difference_of c code }
{
    (code as i32) - (c.offset as i32)
}

// The one float operation of the library. Over a scale of 0 it is not made: 0 over 0 would be an invalid one.
fn quotient(c: Coding, code: u16) -> f64
    ensures { result ≡ float_of c code }
{
    if c.scale == 0 {
        0.0
    } else {
        (difference(c, code) as f64) / (c.scale as f64)
    }
}

// Types 14 (HCL) and 15 (CF) hold classes and flags.
#[tactic(auto, using(std::proofs::lemmas::Bool::Decides::nat_tests), unfolding(crate::specs::Gates::is_measurement))]
fn is_measurement(data_type: u32) -> bool
    ensures { result ≡ is_measurement data_type }
{
    !matches!(data_type, 14 | 15)
}

// What a code says that is not special. A class keeps the raw code.
fn other(c: Coding, code: u16) -> Gate
    ensures { told_gate result ≡ told_gate (other_of c code) }
{
    if is_measurement(c.data_type) {
        Gate::Value(quotient(c, code))
    } else {
        Gate::Class(code)
    }
}

// What a code says: the five special codes, of every type, and any other.
pub fn gate_of(c: Coding, code: u16) -> Gate
    ensures { told_gate result ≡ told_gate (gate_of c code) }
{
    match code {
        0 => Gate::BelowThreshold,
        1 => Gate::RangeFolded,
        2 => Gate::NotScanned,
        3 => Gate::Unknown,
        4 => Gate::Reserved,
        5..=65535 => other(c, code),
    }
}

// 100 * n / scale to the nearest whole number, a half going up; 0 where scale is 0.
fn magnitude(n: u16, scale: u16) -> u32
    ensures { result ≡ magnitude_of n scale }
{
    if scale == 0 {
        0
    } else {
        let s = scale as u32;
        (200 * (n as u32) + s) / (2 * s)
    }
}

// The sign is put on last, so that a half goes away from zero on either side.
fn hundredths(c: Coding, code: u16) -> i32
    ensures { result ≡ hundredths_of c code }
{
    let offset = c.offset;
    if code < offset {
        0 - (magnitude(offset - code, c.scale) as i32)
    } else {
        magnitude(code - offset, c.scale) as i32
    }
}

// All that is told of a gate: beside a value its exact fraction, not reduced, and its hundredths; zeros beside any other
// case.
#[derive(Clone, Copy)]
pub struct Told {
    pub gate: Gate,
    pub difference: i32,
    pub scale: u16,
    pub hundredths: i32,
}

pub fn tell(c: Coding, code: u16) -> Told
    ensures { values_of result ≡ values_of (told_of c code) }
{
    let gate = gate_of(c, code);
    if gate.kind() == Gate::VALUE {
        Told {
            gate,
            difference: difference(c, code),
            scale: c.scale,
            hundredths: hundredths(c, code),
        }
    } else {
        Told {
            gate,
            difference: 0,
            scale: 0,
            hundredths: 0,
        }
    }
}

// ---- the codes of a moment's data

// How many gates the bytes of a moment's data hold.
pub fn gates_in(bytes: &[u8], bin: u16) -> usize
    ensures { result ≡ length (codes_of bin bytes.now) }
{
    if bin == 1 {
        bytes.len()
    } else {
        bytes.len() / 2
    }
}

// The code of gate i, 0 where there is no such gate.
pub fn code_at(bytes: &[u8], bin: u16, i: usize) -> u16
    ensures { result ≡ get_or (codes_of bin bytes.now) i 0 }
{
    if gates_in(bytes, bin) <= i {
        0
    } else if bin == 1 {
        bytes[i] as u16
    } else {
        u16::from_le_bytes([bytes[2 * i], bytes[2 * i + 1]])
    }
}

// ---- a row

// What a row shows for each one-byte code: a division for each of 256 codes, and none for a gate.
fn table(c: Coding) -> [i32; 256]
    ensures { Tabled c result }
{
    let mut t = [0i32; 256];
    for (code, h) in t.iter_mut().enumerate() {
        *h = tell(c, code as u16).hundredths;
    }
    t
}

// A row of one-byte codes, where there is room.
fn row_of_bytes(
    bytes: &[u8],
    c: Coding,
    kinds: &mut [u8],
    hundredths: &mut [i32],
) -> Result<usize, Refusal>
    requires { (length bytes.now ≤ length kinds.old) × (length bytes.now ≤ length hundredths.old) }
    ensures { Rowed c bytes.now kinds.old hundredths.old result kinds.new hundredths.new }
{
    let t = table(c);
    for (i, code) in bytes.iter().enumerate() {
        kinds[i] = gate_of(c, *code as u16).kind();
        hundredths[i] = t[*code as usize];
    }
    Ok(bytes.len())
}

// A row of n codes of either width, where there is room.
fn row_of_codes(
    bytes: &[u8],
    bin: u16,
    n: usize,
    c: Coding,
    kinds: &mut [u8],
    hundredths: &mut [i32],
) -> Result<usize, Refusal>
    requires { (n ≡ length (codes_of bin bytes.now)) × (n ≤ length kinds.old) × (n ≤ length hundredths.old) }
    ensures { Rowed c (codes_of bin bytes.now) kinds.old hundredths.old result kinds.new hundredths.new }
{
    for i in 0..n {
        let told = tell(c, code_at(bytes, bin, i));
        kinds[i] = told.gate.kind();
        hundredths[i] = told.hundredths;
    }
    Ok(n)
}

// Fills a kind and the hundredths for each gate, where both buffers are long enough, and says how many gates there are.
pub fn row(
    bytes: &[u8],
    bin: u16,
    c: Coding,
    kinds: &mut [u8],
    hundredths: &mut [i32],
) -> Result<usize, Refusal>
    ensures { Rowed c (codes_of bin bytes.now) kinds.old hundredths.old result kinds.new hundredths.new }
{
    let n = gates_in(bytes, bin);
    if kinds.len().min(hundredths.len()) < n {
        Err(Refusal::NoRoom)
    } else if bin == 1 {
        row_of_bytes(bytes, c, kinds, hundredths)
    } else {
        row_of_codes(bytes, bin, n, c, kinds, hundredths)
    }
}

// ---- counts

#[derive(Clone, Copy)]
pub struct Counts {
    pub below: u64,
    pub folded: u64,
    pub not_scanned: u64,
    pub unknown: u64,
    pub reserved: u64,
    pub value: u64,
    pub class: u64,
}

impl Counts {
    // Of no gates.
    pub fn none() -> Counts
        ensures { result ≡ counts_of [] }
    {
        Counts {
            below: 0,
            folded: 0,
            not_scanned: 0,
            unknown: 0,
            reserved: 0,
            value: 0,
            class: 0,
        }
    }
}

// One gate more.
fn bump(a: Counts, gate: Gate) -> Counts
    requires { total_of a + 1 < 2 ^ 64 }
    ensures { result ≡ summed a (counts_of ((told_gate gate).0 ∷ [])) }
{
    let mut u = a;
    match gate {
        Gate::BelowThreshold => u.below = a.below + 1,
        Gate::RangeFolded => u.folded = a.folded + 1,
        Gate::NotScanned => u.not_scanned = a.not_scanned + 1,
        Gate::Unknown => u.unknown = a.unknown + 1,
        Gate::Reserved => u.reserved = a.reserved + 1,
        Gate::Value(_) => u.value = a.value + 1,
        Gate::Class(_) => u.class = a.class + 1,
    }
    u
}

// How many gates are of each kind.
pub fn counts_of(bytes: &[u8], bin: u16, c: Coding) -> Counts
    ensures { result ≡ counts_of (map (kind_of c) (codes_of bin bytes.now)) }
{
    let mut u = Counts::none();
    for i in 0..gates_in(bytes, bin) {
        u = bump(u, gate_of(c, code_at(bytes, bin, i)));
    }
    u
}
