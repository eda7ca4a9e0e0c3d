// Lists of values, for so many places.
#![tactic(auto, using(crate::proofs::Listing::counted))]

ghost use Rattle.std.specs.Prelude.{◌≡◌, ◌≤◌, ◌==◌, ◌&&◌, ◌||◌, nat_le, nat_lt, false, if◌then◌else◌, length, drop, Some, None, map, option_map, option_and_then, IfOk, IfErr};
ghost use Rattle.std.specs.List.{list_all};
ghost use Rattle.core_expr.specs.Held.{wordings_with};
ghost use Rattle.core_expr.specs.Values.{view_core, view_core_list, values_of};
ghost use Rattle.core_expr.specs.Writing.{view_written, view_written_list};
ghost use Rattle.recover_expr.specs.Entries.{view_entry, view_listed, IsLostOnlyWhere};
ghost use Rattle.recover_expr.specs.Lists.{view_straight, value_count, split_last, ends_multiple, ends_with_nil, is_nil, all_of, before_last, is_missing, is_further, leading, adjusted, adjusted_list, straight_written, list_and_straight, operand_last, stored_to, stored_singles, stored_values, assigned_values, first_place};
ghost use Rattle.recover_expr.specs.Situation.{view_function, view_state};
ghost use Rattle.recover_expr.specs.Writing.{list_written};

use crate::function::Function;
use crate::lost::{Lost, check};
use crate::stack::{Entry, Values, into_cores};
use crate::state::State;
use crate::stores::{Place, Store};
use crate::writing::{written, written_list, written_operand};
use core_expr::{Core, Cores, Operand, Written, WrittenList};
use std::alloc::{AllocError, Global};

/// What the first store of an assignment stores where it needs no register.
#[derive(Drop)]
pub enum Straight {
    Value(Core),
    Operand(Operand),
}

// How many single values come first.
fn singles(entries: &[Entry]) -> usize
    ensures count { result ≡ leading (map view_entry entries.now) }
    ensures low { result ≤ length entries.now }
{
    entries.iter().take_while(|entry| entry.is_single()).count()
}

fn is_missing(entry: &Entry) -> bool
    ensures { result ≡ is_missing (view_entry entry.now) }
{
    matches!(entry, Entry::Missing)
}

fn is_further(entry: &Entry) -> bool
    ensures { result ≡ is_further (view_entry entry.now) }
{
    matches!(entry, Entry::More)
}

fn are_missing(entries: &[Entry]) -> bool
    ensures { result ≡ list_all is_missing (map view_entry entries.now) }
{
    entries.iter().all(|entry| is_missing(entry))
}

fn are_further(entries: &[Entry]) -> bool
    ensures { result ≡ list_all is_further (map view_entry entries.now) }
{
    entries.iter().all(|entry| is_further(entry))
}

// Whether the entries behind so many are missing, and there are some.
fn are_missing_from(entries: &[Entry], count: usize) -> bool
    ensures { result ≡ (nat_lt count (length entries.now) && list_all is_missing (map view_entry (drop count entries.now))) }
{
    count < entries.len() && are_missing(&entries[count..])
}

fn are_further_from(entries: &[Entry], count: usize) -> bool
    requires { count ≤ length entries.now }
    ensures { result ≡ list_all is_further (map view_entry (drop count entries.now)) }
{
    are_further(&entries[count..])
}

fn ends_multiple(cores: &Cores) -> bool
    ensures { result ≡ ends_multiple (view_core_list cores.now) }
{
    match cores.items().last() {
        Some(core) => core.is_multiple(),
        None => false,
    }
}

// The values for so many places. The last one may give several, and the last ones may be missing, all of them only where that is allowed.
fn adjusted_list(
    alloc: Global,
    mut entries: Vec<Entry>,
    places: usize,
    may_be_none: bool,
    pc: u32,
) -> Result<Values, Lost>
    ensures list { IfOk result (λ list. Some (view_listed list) ≡ adjusted_list places may_be_none (map view_entry entries.items)) }
    ensures lost { IfErr result (IsLostOnlyWhere (adjusted_list places may_be_none (map view_entry entries.items) ≡ None)) }
{
    let all = entries.as_slice();
    let total = entries.len();
    let count = singles(all);
    let missing = are_missing_from(all, count);
    let further = are_further_from(all, count);
    entries.truncate(count);
    let cores = into_cores(alloc, entries, pc)?;
    let multiple = ends_multiple(&cores);
    check(
        fits_places(
            places,
            may_be_none,
            count,
            total,
            missing,
            further,
            multiple,
        ),
        pc,
    )?;
    let open = !missing;
    Ok(Values { cores, open })
}

// Whether so many entries are for so many places. So many single values come first, of which the last one may be `multiple`; the others are all missing or all further values.
fn fits_places(
    places: usize,
    may_be_none: bool,
    count: usize,
    total: usize,
    missing: bool,
    further: bool,
    multiple: bool,
) -> bool
    ensures { result ≡ (if count == total then nat_le places total else if missing then (places == total) && (may_be_none || nat_lt 0 count) else (places == total) && (further && multiple)) }
{
    if count == total {
        places <= total
    } else if missing {
        places == total && (may_be_none || count > 0)
    } else {
        places == total && further && multiple
    }
}

/// The expressions of values for so many places, at a pc: the last one may give several, and the last ones may be missing, all of them only where that is allowed.
pub fn adjusted(
    function: &Function,
    state: &mut State,
    entries: Vec<Entry>,
    places: usize,
    may_be_none: bool,
    pc: u32,
    taken: &mut u32,
) -> Result<WrittenList, Lost>
    ensures wrote { IfOk result (λ list. Some (view_written_list list, taken.new, view_state state.new) ≡ adjusted (view_function function.now) places may_be_none taken.old (map view_entry entries.items) (view_state state.old)) }
    ensures lost { IfErr result (IsLostOnlyWhere (adjusted (view_function function.now) places may_be_none taken.old (map view_entry entries.items) (view_state state.old) ≡ None)) }
{
    let Values { cores, open } = adjusted_list(function.alloc, entries, places, may_be_none, pc)?;
    written_list(function, state, cores, open, taken)
}

// A list with an expression behind it.
fn with_last(list: WrittenList, last: Written) -> Result<WrittenList, AllocError>
    ensures { IfOk result (λ all. view_written_list all ≡ wordings_with (view_written_list list) (view_written last)) }
{
    let WrittenList { mut exps, levels } = list;
    exps.push(Box::into_inner(last.exp))?;
    let levels = levels.max(last.levels);
    Ok(WrittenList { exps, levels })
}

// The expression of what goes straight to a target.
fn straight_written(
    function: &Function,
    state: &mut State,
    straight: Straight,
    taken: &mut u32,
) -> Result<Written, Lost>
    ensures wrote { IfOk result (λ written. Some (view_written written, taken.new, view_state state.new) ≡ straight_written (view_function function.now) taken.old (view_straight straight) (view_state state.old)) }
    ensures lost { IfErr result (IsLostOnlyWhere (straight_written (view_function function.now) taken.old (view_straight straight) (view_state state.old) ≡ None)) }
{
    match straight {
        Straight::Value(core) => written(function, state, core, taken),
        Straight::Operand(operand) => written_operand(function, state, operand, taken),
    }
}

// The expressions of values, and of one more behind them.
fn list_and_straight(
    function: &Function,
    state: &mut State,
    cores: Cores,
    straight: Straight,
    taken: &mut u32,
) -> Result<WrittenList, Lost>
    ensures wrote { IfOk result (λ list. Some (view_written_list list, taken.new, view_state state.new) ≡ list_and_straight (view_function function.now) taken.old (view_core_list cores) (view_straight straight) (view_state state.old)) }
    ensures lost { IfErr result (IsLostOnlyWhere (list_and_straight (view_function function.now) taken.old (view_core_list cores) (view_straight straight) (view_state state.old) ≡ None)) }
{
    let list = written_list(function, state, cores, true, taken)?;
    let last = straight_written(function, state, straight, taken)?;
    Ok(with_last(list, last)?)
}

/// The expressions of the values of an assignment with these stores, from the last target back: values in registers, and what went straight to the last target.
pub fn assigned_values(
    function: &Function,
    state: &mut State,
    values: Vec<Entry>,
    straight: Option<Straight>,
    stores: &[Store],
    next: u32,
    taken: &mut u32,
) -> Result<WrittenList, Lost>
    ensures wrote { IfOk result (λ list. Some (view_written_list list, taken.new, view_state state.new) ≡ assigned_values (view_function function.now) stores.now taken.old (map view_entry values.items) (option_map view_straight straight) (view_state state.old)) }
    ensures lost { IfErr result (IsLostOnlyWhere (assigned_values (view_function function.now) stores.now taken.old (map view_entry values.items) (option_map view_straight straight) (view_state state.old) ≡ None)) }
{
    let Some(straight) = straight else {
        return stored_values(function, state, values, stores, next, taken);
    };
    let cores = into_cores(function.alloc, values, state.pc)?;
    list_and_straight(function, state, cores, straight, taken)
}

fn stored_values(
    function: &Function,
    state: &mut State,
    values: Vec<Entry>,
    stores: &[Store],
    next: u32,
    taken: &mut u32,
) -> Result<WrittenList, Lost>
    ensures wrote { IfOk result (λ list. Some (view_written_list list, taken.new, view_state state.new) ≡ stored_values (view_function function.now) stores.now taken.old (map view_entry values.items) (view_state state.old)) }
    ensures lost { IfErr result (IsLostOnlyWhere (stored_values (view_function function.now) stores.now taken.old (map view_entry values.items) (view_state state.old) ≡ None)) }
{
    if singles(values.as_slice()) < values.len() {
        return adjusted(function, state, values, stores.len(), false, next, taken);
    }
    let cores = into_cores(function.alloc, values, state.pc)?;
    stored_singles(function, state, cores, stores, taken)
}

fn first_place(stores: &[Store]) -> Option<Place>
    ensures { result ≡ first_place stores.now }
{
    Some(stores.first()?.place)
}

fn stored_singles(
    function: &Function,
    state: &mut State,
    cores: Cores,
    stores: &[Store],
    taken: &mut u32,
) -> Result<WrittenList, Lost>
    ensures wrote { IfOk result (λ list. Some (view_written_list list, taken.new, view_state state.new) ≡ stored_singles (view_function function.now) stores.now taken.old (view_state state.old) (view_core_list cores)) }
    ensures lost { IfErr result (IsLostOnlyWhere (stored_singles (view_function function.now) stores.now taken.old (view_state state.old) (view_core_list cores) ≡ None)) }
{
    if cores.items().len() != stores.len() {
        return written_list(function, state, cores, true, taken);
    }
    stored_to(function, state, cores, first_place(stores), taken)
}

// As many values as stores, of which the first is to this place.
fn stored_to(
    function: &Function,
    state: &mut State,
    cores: Cores,
    place: Option<Place>,
    taken: &mut u32,
) -> Result<WrittenList, Lost>
    ensures wrote { IfOk result (λ list. Some (view_written_list list, taken.new, view_state state.new) ≡ stored_to (view_function function.now) place (value_count (view_core_list cores)) taken.old (view_core_list cores) (view_state state.old)) }
    ensures lost { IfErr result (IsLostOnlyWhere (stored_to (view_function function.now) place (value_count (view_core_list cores)) taken.old (view_core_list cores) (view_state state.old) ≡ None)) }
{
    match place {
        Some(place) => stored_to_place(function, state, cores, place, taken),
        None => written_list(function, state, cores, true, taken),
    }
}

fn stored_to_place(
    function: &Function,
    state: &mut State,
    cores: Cores,
    place: Place,
    taken: &mut u32,
) -> Result<WrittenList, Lost>
    ensures wrote { IfOk result (λ list. Some (view_written_list list, taken.new, view_state state.new) ≡ stored_to (view_function function.now) (Some place) (value_count (view_core_list cores)) taken.old (view_core_list cores) (view_state state.old)) }
    ensures lost { IfErr result (IsLostOnlyWhere (stored_to (view_function function.now) (Some place) (value_count (view_core_list cores)) taken.old (view_core_list cores) (view_state state.old) ≡ None)) }
{
    match place {
        // The value of a part of a table is an operand of the store.
        Place::Index { .. } => operand_last(function, state, cores.into_vec(), taken),
        Place::Local(_) => stored_to_local(function, state, cores.into_vec(), taken),
        _ => written_list(function, state, cores, true, taken),
    }
}

// As many values as stores, of which the first is to a local. A nil that is stored from a register is one that is missing: another goes straight into a local.
fn stored_to_local(
    function: &Function,
    state: &mut State,
    cores: Vec<Core>,
    taken: &mut u32,
) -> Result<WrittenList, Lost>
    ensures wrote { IfOk result (λ list. Some (view_written_list list, taken.new, view_state state.new) ≡ (if nat_lt 1 (value_count (values_of cores.items)) && ends_with_nil (values_of cores.items) then list_written (view_function function.now) taken.old (record { values = before_last (split_last (values_of cores.items)); all = false }) (view_state state.old) else list_written (view_function function.now) taken.old (all_of (values_of cores.items)) (view_state state.old))) }
    ensures lost { IfErr result (IsLostOnlyWhere ((if nat_lt 1 (value_count (values_of cores.items)) && ends_with_nil (values_of cores.items) then list_written (view_function function.now) taken.old (record { values = before_last (split_last (values_of cores.items)); all = false }) (view_state state.old) else list_written (view_function function.now) taken.old (all_of (values_of cores.items)) (view_state state.old)) ≡ None)) }
{
    if lacks_last(cores.as_slice()) {
        all_but_last(function, state, cores, taken)
    } else {
        written_list(function, state, Cores::from_vec(cores), true, taken)
    }
}

fn lacks_last(cores: &[Core]) -> bool
    ensures { result ≡ (nat_lt 1 (value_count (values_of cores.now)) && ends_with_nil (values_of cores.now)) }
{
    cores.len() > 1 && ends_with_nil(cores)
}

fn ends_with_nil(cores: &[Core]) -> bool
    ensures { result ≡ ends_with_nil (values_of cores.now) }
{
    match cores.last() {
        Some(core) => is_nil(core),
        None => false,
    }
}

fn is_nil(core: &Core) -> bool
    ensures { result ≡ is_nil (view_core core.now) }
{
    matches!(core, Core::Nil)
}

// The expressions of the values before the last one, each of which gives one value.
fn all_but_last(
    function: &Function,
    state: &mut State,
    mut cores: Vec<Core>,
    taken: &mut u32,
) -> Result<WrittenList, Lost>
    ensures wrote { IfOk result (λ list. Some (view_written_list list, taken.new, view_state state.new) ≡ list_written (view_function function.now) taken.old (record { values = before_last (split_last (values_of cores.items)); all = false }) (view_state state.old)) }
    ensures lost { IfErr result (IsLostOnlyWhere (list_written (view_function function.now) taken.old (record { values = before_last (split_last (values_of cores.items)); all = false }) (view_state state.old) ≡ None)) }
{
    let _ = cores.pop();
    written_list(function, state, Cores::from_vec(cores), false, taken)
}

// The expressions of values of which the last one is an operand.
fn operand_last(
    function: &Function,
    state: &mut State,
    mut cores: Vec<Core>,
    taken: &mut u32,
) -> Result<WrittenList, Lost>
    ensures wrote { IfOk result (λ list. Some (view_written_list list, taken.new, view_state state.new) ≡ option_and_then (operand_last (view_function function.now) taken.old (view_state state.old)) (split_last (values_of cores.items))) }
    ensures lost { IfErr result (IsLostOnlyWhere (option_and_then (operand_last (view_function function.now) taken.old (view_state state.old)) (split_last (values_of cores.items)) ≡ None)) }
{
    let Some(last) = cores.pop() else {
        return Err(Lost::NotScheme { pc: state.pc });
    };
    let last = Straight::Operand(Operand::Value(last));
    list_and_straight(function, state, Cores::from_vec(cores), last, taken)
}
