ghost use Rattle.std.specs.Prelude.{◌≡◌, ◌<◌, ◌≤◌, length, IfOk, Some, option_map, map, codes, IsTrue};
ghost use Rattle.std.specs.List.{list_all};
ghost use Rattle.toml.specs.Data.{get_member};
ghost use Rattle.toml.specs.View.{view, items_view, table_view};
ghost use Rattle.mpc_values.specs.declared.limits.TheConstants.{MAX_CORES};
ghost use Rattle.topology.specs.Instances.{numbers_fit};
ghost use Rattle.topology.specs.MachineFile.{document_of, is_core_key, is_level_key, keys_of, values_of, is_table, tables_of, core_values, core_tables, byte_of, byte_in, byte_at, four_numbers, numbers_in, numbers_of_core, together, keeps_apart, is_nested, nested_machine, machine_of_tables, machine_of};

use crate::core_numbers::CoreNumbers;
use crate::machines::Machine;
use crate::refusals::MachineRefusal;
use mpc_values::Memory;
use mpc_values::limits::MAX_CORES;
use std::alloc::Global;
use toml::{Table, Value};

/// Reads a machine file: TOML with one `[[core]]` table for each core, each with the integer keys
/// `numa`, `l3`, `l2` and `l1` of 0 to 255 and no other key. The first broken rule refuses it:
/// `NotToml` (no UTF-8, or no TOML), `BadField` (another key than `core`, or one that is no array of
/// tables), `NoCores`, `TooManyCores` (more than 256), `BadField` (in a core's table), `NotNested`
/// (two cores that share an inner level and not the one around it).
pub fn read_machine(alloc: Global, bytes: &[u8]) -> Result<Result<Machine, MachineRefusal>, Memory>
    ensures { IfOk result (λ answer. answer ≡ machine_of bytes.now) }
{
    let Some(document) = read_document(alloc, bytes)? else {
        return Ok(Err(MachineRefusal::NotToml));
    };
    let Some(tables) = core_tables(&document) else {
        return Ok(Err(MachineRefusal::BadField));
    };
    machine_of_tables(alloc, tables)
}

/// The document, or none where the bytes are no UTF-8 or no TOML.
fn read_document(alloc: Global, bytes: &[u8]) -> Result<Option<Table>, Memory>
    ensures { IfOk result (λ found. option_map (λ t. table_view t) found ≡ document_of bytes.now) }
{
    match toml::table_from_slice(alloc, bytes) {
        Ok(table) => Ok(Some(table)),
        Err(error) => {
            if error.is_memory() {
                Err(Memory)
            } else {
                Ok(None)
            }
        }
    }
}

/// The values of `core`, where the document has no other key and an array of tables there.
fn core_tables(document: &Table) -> Option<&[Value]>
    ensures { option_map (λ v. values_of (items_view v.now)) result ≡ core_tables (table_view document.now) }
{
    if has_core_key_alone(document) {
        core_values(core_value(document))
    } else {
        None
    }
}

fn core_value(document: &Table) -> Option<&Value>
    ensures { option_map (λ v. view v.now) result ≡ get_member (codes "core") (table_view document.now) }
{
    document.get("core")
}

/// The values that stand for cores: none where there is no key.
fn core_values(found: Option<&Value>) -> Option<&[Value]>
    ensures { option_map (λ v. values_of (items_view v.now)) result ≡ core_values (option_map (λ v. view v.now) found.entry) }
{
    match found {
        None => Some(&[]),
        Some(value) => array_values(value),
    }
}

fn array_values(value: &Value) -> Option<&[Value]>
    ensures { option_map (λ v. values_of (items_view v.now)) result ≡ core_values (Some (view value.now)) }
{
    match value.as_array() {
        Some(values) => tables_of(values),
        None => None,
    }
}

fn has_core_key_alone(document: &Table) -> bool
    ensures { result ≡ list_all is_core_key (keys_of (table_view document.now)) }
{
    document.keys().all(|key| key.as_str() == "core")
}

fn tables_of(values: &[Value]) -> Option<&[Value]>
    ensures { option_map (λ v. values_of (items_view v.now)) result ≡ tables_of (items_view values.now) }
{
    if all_tables(values) {
        Some(values)
    } else {
        None
    }
}

fn all_tables(values: &[Value]) -> bool
    ensures { result ≡ list_all is_table (values_of (items_view values.now)) }
{
    values.iter().all(|value| value.is_table())
}

/// The machine of the tables, or the refusal of the first rule that they break.
fn machine_of_tables(
    alloc: Global,
    tables: &[Value],
) -> Result<Result<Machine, MachineRefusal>, Memory>
    ensures { IfOk result (λ answer. answer ≡ machine_of_tables (Some (values_of (items_view tables.now)))) }
{
    if tables.is_empty() {
        return Ok(Err(MachineRefusal::NoCores));
    }
    if tables.len() > MAX_CORES {
        return Ok(Err(MachineRefusal::TooManyCores));
    }
    match all_numbers(alloc, tables)? {
        Some(cores) => Ok(nested_machine(cores)),
        None => Ok(Err(MachineRefusal::BadField)),
    }
}

fn nested_machine(cores: Vec<CoreNumbers>) -> Result<Machine, MachineRefusal>
    requires some { 0 < length cores.items }
    requires most { length cores.items ≤ MAX_CORES }
    requires fits { IsTrue (list_all numbers_fit cores.items) }
    ensures { result ≡ nested_machine (Some cores.items) }
{
    if is_nested(cores.as_slice()) {
        Ok(Machine::of(cores))
    } else {
        Err(MachineRefusal::NotNested)
    }
}

/// The numbers of all cores, where each table has its four.
fn all_numbers(alloc: Global, tables: &[Value]) -> Result<Option<Vec<CoreNumbers>>, Memory>
    ensures { IfOk result (λ found. option_map (λ v. v.items) found ≡ together (map numbers_of_core (values_of (items_view tables.now)))) }
{
    let mut cores = Vec::new(alloc);
    for table in tables {
        match core_numbers(table) {
            Some(numbers) => cores.push(numbers)?,
            None => return Ok(None),
        }
    }
    Ok(Some(cores))
}

/// The numbers of one core.
fn core_numbers(value: &Value) -> Option<CoreNumbers>
    ensures { result ≡ numbers_of_core (view value.now) }
{
    match value.as_table() {
        Some(fields) => numbers_in(fields),
        None => None,
    }
}

fn numbers_in(fields: &Table) -> Option<CoreNumbers>
    ensures { result ≡ numbers_in (table_view fields.now) }
{
    if has_level_keys_alone(fields) {
        four_numbers(
            byte_at(fields, "numa"),
            byte_at(fields, "l3"),
            byte_at(fields, "l2"),
            byte_at(fields, "l1"),
        )
    } else {
        None
    }
}

fn four_numbers(
    numa: Option<u8>,
    l3: Option<u8>,
    l2: Option<u8>,
    l1: Option<u8>,
) -> Option<CoreNumbers>
    ensures { result ≡ four_numbers numa l3 l2 l1 }
{
    match (numa, l3, l2, l1) {
        (Some(numa), Some(l3), Some(l2), Some(l1)) => Some(CoreNumbers { numa, l3, l2, l1 }),
        _ => None,
    }
}

fn has_level_keys_alone(fields: &Table) -> bool
    ensures { result ≡ list_all is_level_key (keys_of (table_view fields.now)) }
{
    fields.keys().all(|key| is_level_key(key.as_str()))
}

fn is_level_key(key: &str) -> bool
    ensures { result ≡ is_level_key key.now }
{
    key == "numa" || key == "l3" || key == "l2" || key == "l1"
}

/// The integer of 0 to 255 at a key.
fn byte_at(fields: &Table, key: &str) -> Option<u8>
    ensures { result ≡ byte_at key.now (table_view fields.now) }
{
    match fields.get(key) {
        Some(value) => byte_in(value),
        None => None,
    }
}

fn byte_in(value: &Value) -> Option<u8>
    ensures { result ≡ byte_in (view value.now) }
{
    match value.as_integer() {
        Some(number) => byte_of(number),
        None => None,
    }
}

fn byte_of(number: i64) -> Option<u8>
    ensures { result ≡ byte_of number }
{
    u8::try_from(number).ok()
}

/// Each level lies within the level around it.
fn is_nested(cores: &[CoreNumbers]) -> bool
    ensures { result ≡ is_nested cores.now }
{
    cores.iter().all(|core| nests_with(cores, core))
}

fn nests_with(cores: &[CoreNumbers], core: &CoreNumbers) -> bool
    ensures { result ≡ list_all (keeps_apart core.now) cores.now }
{
    cores.iter().all(|other| keeps_apart(core, other))
}

/// Two cores of one instance of an inner level are in one of the level around it.
fn keeps_apart(a: &CoreNumbers, b: &CoreNumbers) -> bool
    ensures { result ≡ keeps_apart a.now b.now }
{
    (a.l1 != b.l1 || a.l2 == b.l2)
        && (a.l2 != b.l2 || a.l3 == b.l3)
        && (a.l3 != b.l3 || a.numa == b.numa)
}
