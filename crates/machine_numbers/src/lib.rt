// A machine as fixed-width numbers, for a host that is not written in Rattle. What each number says is in specs/Fields.antt.
#![tactic(auto)]

ghost use Rattle.std.specs.Prelude.{◌≡◌, eqb, ltb};
ghost use Rattle.std.proofs.Math.Option.{none, some};
ghost use Rattle.choice.specs.Choice.{if◌then◌orelse◌};
ghost use Rattle.rules.specs.declared.Thumb.TheVariants.{Left, Right};
ghost use Rattle.pairs.specs.Lent.{of_list};
ghost use Rattle.machine_numbers.specs.Fields.{thumb_number, in_numbers, no_character};
ghost use Rattle.machine_numbers.specs.Fields.{no_second, second_fits, no_thumb, no_release};
ghost use Rattle.machine_numbers.specs.Fields.{as_S1, as_S2, as_S3, as_S4, as_S5, as_S6, as_S7};
ghost use Rattle.machine_numbers.specs.Fields.{as_S8, resting_named, settings_named, named};
ghost use Rattle.machine_numbers.specs.Fields.{no_machine, is_no_machine};
ghost use Rattle.machine_numbers.specs.Views.{thumb_as, found_as, named_as};
ghost use Rattle.machine_numbers.specs.Formed.{formed, rest_formed, thumb_at, second_at, resting_at, machine_at};

use held::held_formed;
use pairs::is_pair;
use rules::{Key, Machine, Resting, Settings, Stamp, Thumb};
use waits::is_key;

// A field that a state does not use is 0. Stamps keep their type, so that a number of another clock is not taken for one in C either.
// Nothing is left between the fields or behind them, so a struct in C is these numbers and no more.
#[repr(C)]
#[derive(Clone, Copy, PartialEq, Eq)]
pub struct MachineNumbers {
    // The last accepted stamp.
    pub last: Stamp,
    // When the character key M was pressed: states 2, 4 to 8.
    pub m: Stamp,
    // When the second character key K was pressed: states 7 and 8.
    pub k: Stamp,
    // When the thumb O was pressed: states 3 to 6.
    pub o: Stamp,
    // When the thumb was released: state 6. When M was released: state 8.
    pub r: Stamp,
    // The held character keys, one bit a key.
    pub held: u32,
    // K: states 7 and 8.
    pub second: u32,
    // The settings: T, J, L and solo.
    pub t: u16,
    pub j: u8,
    pub l: u8,
    pub solo: u8,
    // 1 to 8.
    pub state: u8,
    // M: states 2, 4 to 8.
    pub key: u8,
    // O, 0 left and 1 right: states 3 to 6.
    pub thumb: u8,
}

// A key's number is below this.
const KEY_NUMBERS: u32 = 256;

// The stamp that a state does not use.
const UNUSED: Stamp = Stamp(0);

// 0 is the left thumb, 1 the right one.
#[tactic(auto, unfolding(crate::specs::Fields::thumb_number))]
fn thumb_number(thumb: Thumb) -> u8
    ensures { result ≡ thumb_number thumb }
{
    thumb as u8
}

fn thumb_named(number: u8) -> Option<Thumb>
    ensures { thumb_as result ≡ (if eqb number 0 then some Left orelse (if eqb number 1 then some Right orelse none)) }
{
    match number {
        0 => Some(Thumb::Left),
        1 => Some(Thumb::Right),
        _ => None,
    }
}

// The numbers of any machine, well formed or not.
#[tactic(auto, unfolding(crate::specs::Fields::in_numbers))]
pub fn in_numbers(machine: Machine) -> MachineNumbers
    ensures { result ≡ in_numbers machine }
{
    let numbers = MachineNumbers {
        last: machine.last,
        held: machine.held,
        t: machine.settings.t,
        j: machine.settings.j,
        l: machine.settings.l,
        solo: machine.settings.solo,
        ..no_machine()
    };
    match machine.resting {
        Resting::S1 => MachineNumbers {
            state: 1,
            ..numbers
        },
        Resting::S2(key, m) => MachineNumbers {
            state: 2,
            key: key.0,
            m,
            ..numbers
        },
        Resting::S3(thumb, o) => MachineNumbers {
            state: 3,
            thumb: thumb_number(thumb),
            o,
            ..numbers
        },
        Resting::S4(key, m, thumb, o) => MachineNumbers {
            state: 4,
            key: key.0,
            m,
            thumb: thumb_number(thumb),
            o,
            ..numbers
        },
        Resting::S5(thumb, o, key, m) => MachineNumbers {
            state: 5,
            thumb: thumb_number(thumb),
            o,
            key: key.0,
            m,
            ..numbers
        },
        Resting::S6(thumb, o, key, m, r) => MachineNumbers {
            state: 6,
            thumb: thumb_number(thumb),
            o,
            key: key.0,
            m,
            r,
            ..numbers
        },
        Resting::S7(key, m, second, k) => MachineNumbers {
            state: 7,
            key: key.0,
            m,
            second: second.0 as u32,
            k,
            ..numbers
        },
        Resting::S8(key, m, second, k, r) => MachineNumbers {
            state: 8,
            key: key.0,
            m,
            second: second.0 as u32,
            k,
            r,
            ..numbers
        },
    }
}

// Where several tests of numbers are asked, `&` asks them all, so that none costs a branch.
#[tactic(auto, unfolding(crate::specs::Fields::no_character))]
fn no_character(numbers: MachineNumbers) -> bool
    ensures { result ≡ no_character numbers }
{
    numbers.key == 0 && numbers.m.0 == 0
}

#[tactic(auto, unfolding(crate::specs::Fields::no_second))]
fn no_second(numbers: MachineNumbers) -> bool
    ensures { result ≡ no_second numbers }
{
    numbers.second == 0 && numbers.k.0 == 0
}

#[tactic(auto, unfolding(crate::specs::Fields::second_fits))]
fn second_fits(numbers: MachineNumbers) -> bool
    ensures { result ≡ second_fits numbers }
{
    numbers.second < KEY_NUMBERS
}

#[tactic(auto, unfolding(crate::specs::Fields::no_thumb))]
fn no_thumb(numbers: MachineNumbers) -> bool
    ensures { result ≡ no_thumb numbers }
{
    numbers.thumb == 0 && numbers.o.0 == 0
}

#[tactic(auto, unfolding(crate::specs::Fields::no_release))]
fn no_release(numbers: MachineNumbers) -> bool
    ensures { result ≡ no_release numbers }
{
    numbers.r.0 == 0
}

// One function for each state. It wants 0 in what the state does not use, so that a machine has one form in numbers only.
#[tactic(auto, unfolding(crate::specs::Fields::as_S1))]
fn as_s1(numbers: MachineNumbers) -> Option<Resting>
    ensures { found_as result ≡ as_S1 numbers }
{
    if no_character(numbers) & no_second(numbers) & no_thumb(numbers) & no_release(numbers) {
        return Some(Resting::S1);
    }
    None
}

#[tactic(auto, unfolding(crate::specs::Fields::as_S2))]
fn as_s2(numbers: MachineNumbers) -> Option<Resting>
    ensures { found_as result ≡ as_S2 numbers }
{
    if no_second(numbers) & no_thumb(numbers) & no_release(numbers) {
        return Some(Resting::S2(Key(numbers.key), numbers.m));
    }
    None
}

#[tactic(auto, unfolding(crate::specs::Fields::as_S3))]
fn as_s3(numbers: MachineNumbers) -> Option<Resting>
    ensures { found_as result ≡ as_S3 numbers }
{
    if no_character(numbers) & no_second(numbers) & no_release(numbers) {
        let thumb = thumb_named(numbers.thumb)?;
        return Some(Resting::S3(thumb, numbers.o));
    }
    None
}

#[tactic(auto, unfolding(crate::specs::Fields::as_S4))]
fn as_s4(numbers: MachineNumbers) -> Option<Resting>
    ensures { found_as result ≡ as_S4 numbers }
{
    if no_second(numbers) & no_release(numbers) {
        let thumb = thumb_named(numbers.thumb)?;
        return Some(Resting::S4(Key(numbers.key), numbers.m, thumb, numbers.o));
    }
    None
}

#[tactic(auto, unfolding(crate::specs::Fields::as_S5))]
fn as_s5(numbers: MachineNumbers) -> Option<Resting>
    ensures { found_as result ≡ as_S5 numbers }
{
    if no_second(numbers) & no_release(numbers) {
        let thumb = thumb_named(numbers.thumb)?;
        return Some(Resting::S5(thumb, numbers.o, Key(numbers.key), numbers.m));
    }
    None
}

#[tactic(auto, unfolding(crate::specs::Fields::as_S6))]
fn as_s6(numbers: MachineNumbers) -> Option<Resting>
    ensures { found_as result ≡ as_S6 numbers }
{
    if no_second(numbers) {
        let thumb = thumb_named(numbers.thumb)?;
        return Some(Resting::S6(thumb, numbers.o, Key(numbers.key), numbers.m, numbers.r));
    }
    None
}

// K, where its number fits: the machine's type has 8 bits for it.
fn second_at(numbers: MachineNumbers) -> Key
    ensures { result ≡ second_at numbers }
{
    Key((numbers.second & 0xFF) as u8)
}

#[tactic(auto, using(crate::proofs::Forms::second_same), unfolding(crate::specs::Fields::as_S7))]
fn as_s7(numbers: MachineNumbers) -> Option<Resting>
    ensures { found_as result ≡ as_S7 numbers }
{
    if no_thumb(numbers) & no_release(numbers) & second_fits(numbers) {
        return Some(Resting::S7(Key(numbers.key), numbers.m, second_at(numbers), numbers.k));
    }
    None
}

#[tactic(auto, using(crate::proofs::Forms::second_same), unfolding(crate::specs::Fields::as_S8))]
fn as_s8(numbers: MachineNumbers) -> Option<Resting>
    ensures { found_as result ≡ as_S8 numbers }
{
    if no_thumb(numbers) & second_fits(numbers) {
        return Some(Resting::S8(
            Key(numbers.key),
            numbers.m,
            second_at(numbers),
            numbers.k,
            numbers.r,
        ));
    }
    None
}

// What rests, by the number of the state.
#[tactic(auto, unfolding(crate::specs::Fields::resting_named))]
fn find(numbers: MachineNumbers) -> Option<Resting>
    ensures { found_as result ≡ resting_named numbers }
{
    match numbers.state {
        1 => as_s1(numbers),
        2 => as_s2(numbers),
        3 => as_s3(numbers),
        4 => as_s4(numbers),
        5 => as_s5(numbers),
        6 => as_s6(numbers),
        7 => as_s7(numbers),
        8 => as_s8(numbers),
        _ => None, // no state
    }
}

fn settings_of(numbers: MachineNumbers) -> Settings
    ensures { result ≡ settings_named numbers }
{
    Settings {
        t: numbers.t,
        j: numbers.j,
        l: numbers.l,
        solo: numbers.solo,
    }
}

// The machine that numbers name, if they name one. Whether it is well formed is asked of the machine.
#[tactic(auto, unfolding(crate::specs::Fields::named))]
pub fn machine_of(numbers: MachineNumbers) -> Option<Machine>
    ensures { named_as result ≡ named numbers }
{
    let resting = find(numbers)?;
    Some(Machine {
        settings: settings_of(numbers),
        resting,
        last: numbers.last,
        held: numbers.held,
    })
}

// Numbers that name no machine: there is no state 0.
pub fn no_machine() -> MachineNumbers
    ensures { result ≡ no_machine }
{
    MachineNumbers {
        last: UNUSED,
        m: UNUSED,
        k: UNUSED,
        o: UNUSED,
        r: UNUSED,
        held: 0,
        second: 0,
        t: 0,
        j: 0,
        l: 0,
        solo: 0,
        state: 0,
        key: 0,
        thumb: 0,
    }
}

// Whether every number is 0.
pub fn is_no_machine(numbers: MachineNumbers) -> bool
    ensures { result ≡ is_no_machine numbers }
{
    numbers == no_machine()
}

fn is_thumb(number: u8) -> bool
    ensures { result ≡ ltb number 2 }
{
    number < 2
}

// One function for each state: whether what rests is named, and well formed by the last stamp and the list.
#[tactic(auto, using(crate::proofs::Forms::in_1))]
fn s1_formed(list: &[u32], numbers: MachineNumbers) -> bool
    ensures { result ≡ rest_formed (of_list list.now) numbers.last (as_S1 numbers) }
{
    no_character(numbers) & no_second(numbers) & no_thumb(numbers) & no_release(numbers)
}

#[tactic(auto, using(crate::proofs::Forms::in_2, waits::proofs::Order::le_is))]
fn s2_formed(list: &[u32], numbers: MachineNumbers) -> bool
    ensures { result ≡ rest_formed (of_list list.now) numbers.last (as_S2 numbers) }
{
    let MachineNumbers { last, m, .. } = numbers;
    let named = no_second(numbers) & no_thumb(numbers) & no_release(numbers);
    named & (is_key(Key(numbers.key)) & (m <= last))
}

#[tactic(auto, using(crate::proofs::Forms::in_3, waits::proofs::Order::le_is))]
fn s3_formed(list: &[u32], numbers: MachineNumbers) -> bool
    ensures { result ≡ rest_formed (of_list list.now) numbers.last (as_S3 numbers) }
{
    let MachineNumbers { last, o, .. } = numbers;
    let named = no_character(numbers) & no_second(numbers) & no_release(numbers);
    named & (is_thumb(numbers.thumb) & (o <= last))
}

#[tactic(auto, using(crate::proofs::Forms::in_4, waits::proofs::Order::le_is))]
fn s4_formed(list: &[u32], numbers: MachineNumbers) -> bool
    ensures { result ≡ rest_formed (of_list list.now) numbers.last (as_S4 numbers) }
{
    let MachineNumbers { last, m, o, .. } = numbers;
    let stamps = (m <= last) & (o <= last) & (m <= o);
    let named = no_second(numbers) & no_release(numbers);
    named & (is_thumb(numbers.thumb) & (is_key(Key(numbers.key)) & stamps))
}

#[tactic(auto, using(crate::proofs::Forms::in_5, waits::proofs::Order::le_is))]
fn s5_formed(list: &[u32], numbers: MachineNumbers) -> bool
    ensures { result ≡ rest_formed (of_list list.now) numbers.last (as_S5 numbers) }
{
    let MachineNumbers { last, m, o, .. } = numbers;
    let stamps = (o <= last) & (m <= last) & (o <= m);
    let named = no_second(numbers) & no_release(numbers);
    named & (is_thumb(numbers.thumb) & (is_key(Key(numbers.key)) & stamps))
}

#[tactic(auto, using(crate::proofs::Forms::in_6, waits::proofs::Order::le_is))]
fn s6_formed(list: &[u32], numbers: MachineNumbers) -> bool
    ensures { result ≡ rest_formed (of_list list.now) numbers.last (as_S6 numbers) }
{
    let MachineNumbers { last, m, o, r, .. } = numbers;
    let stamps = (o <= last) & (m <= last) & (r <= last) & ((o <= m) & (m <= r));
    no_second(numbers) & (is_thumb(numbers.thumb) & (is_key(Key(numbers.key)) & stamps))
}

#[tactic(auto, using(crate::proofs::Forms::in_7, waits::proofs::Order::le_is))]
fn s7_formed(list: &[u32], numbers: MachineNumbers) -> bool
    ensures { result ≡ rest_formed (of_list list.now) numbers.last (as_S7 numbers) }
{
    let MachineNumbers { last, m, k, .. } = numbers;
    let key = Key(numbers.key);
    let second = second_at(numbers);
    let named = no_thumb(numbers) & no_release(numbers) & second_fits(numbers);
    let stamps = (m <= last) & (k <= last) & (m <= k);
    let keys = is_key(key) & is_key(second);
    named & (keys & stamps & is_pair(list, key, second))
}

#[tactic(auto, using(crate::proofs::Forms::in_8, waits::proofs::Order::le_is))]
fn s8_formed(list: &[u32], numbers: MachineNumbers) -> bool
    ensures { result ≡ rest_formed (of_list list.now) numbers.last (as_S8 numbers) }
{
    let MachineNumbers { last, m, k, r, .. } = numbers;
    let key = Key(numbers.key);
    let second = second_at(numbers);
    let named = no_thumb(numbers) & second_fits(numbers);
    let stamps = (m <= last) & (k <= last) & (r <= last) & ((m <= k) & (k <= r));
    let keys = is_key(key) & is_key(second);
    named & (keys & stamps & is_pair(list, key, second))
}

// One arm for each state.
#[tactic(auto, unfolding(crate::specs::Fields::resting_named))]
fn rests_formed(list: &[u32], numbers: MachineNumbers) -> bool
    ensures { result ≡ rest_formed (of_list list.now) numbers.last (resting_named numbers) }
{
    match numbers.state {
        1 => s1_formed(list, numbers),
        2 => s2_formed(list, numbers),
        3 => s3_formed(list, numbers),
        4 => s4_formed(list, numbers),
        5 => s5_formed(list, numbers),
        6 => s6_formed(list, numbers),
        7 => s7_formed(list, numbers),
        8 => s8_formed(list, numbers),
        _ => false, // no state
    }
}

// Whether numbers name a machine that is well formed. It is asked of the numbers themselves: no machine is made.
#[tactic(auto, using(crate::proofs::Forms::by_tests, waits::proofs::Order::le_is))]
pub fn is_formed(list: &[u32], numbers: MachineNumbers) -> bool
    ensures { result ≡ formed (of_list list.now) numbers }
{
    let settings = settings_of(numbers);
    let bounds = settings.in_range() & (numbers.last <= Machine::LARGEST);
    bounds & held_formed(numbers.held) & rests_formed(list, numbers)
}

#[tactic(auto, unfolding(crate::specs::Formed::thumb_at))]
fn thumb_at(number: u8) -> Thumb
    ensures { result ≡ thumb_at number }
{
    if number == 0 {
        Thumb::Left
    } else {
        Thumb::Right
    }
}

#[tactic(auto, unfolding(crate::specs::Formed::resting_at))]
fn resting_at(numbers: MachineNumbers) -> Resting
    ensures { result ≡ resting_at numbers }
{
    let MachineNumbers { m, k, o, r, .. } = numbers;
    let key = Key(numbers.key);
    let second = second_at(numbers);
    let thumb = thumb_at(numbers.thumb);
    match numbers.state {
        2 => Resting::S2(key, m),
        3 => Resting::S3(thumb, o),
        4 => Resting::S4(key, m, thumb, o),
        5 => Resting::S5(thumb, o, key, m),
        6 => Resting::S6(thumb, o, key, m, r),
        7 => Resting::S7(key, m, second, k),
        8 => Resting::S8(key, m, second, k, r),
        _ => Resting::S1,
    }
}

// A machine for any numbers, for a caller who knows that they name one: it is that one, and nothing is asked again.
#[tactic(auto, unfolding(crate::specs::Formed::machine_at))]
pub fn machine_at(numbers: MachineNumbers) -> Machine
    ensures { result ≡ machine_at numbers }
{
    Machine {
        settings: settings_of(numbers),
        resting: resting_at(numbers),
        last: numbers.last,
        held: numbers.held,
    }
}
