// The operations of a row.
use crate::environment::Environment;
use crate::fault::RowFault;
use row_source::read_source;
use std::alloc::{AllocError, Global};

/// What the operations of a row answer, one behind the other.
pub(crate) fn answer_row(alloc: Global, row: &str) -> Result<String, AllocError> {
    match answers_of(alloc, row) {
        Ok(answers) => Ok(answers),
        Err(RowFault::OutOfMemory) => Err(AllocError),
        Err(fault) => format!(in alloc; "{fault}"),
    }
}

fn answers_of(alloc: Global, row: &str) -> Result<String, RowFault> {
    let mut environment = Environment::new(alloc);
    let mut answers = String::new(alloc);
    for operation in row.strip_suffix(" ;").unwrap_or(row).split(" ; ") {
        let Some(answer) = answer(alloc, &mut environment, operation)? else {
            continue;
        };
        if !answers.is_empty() {
            answers.push_str("; ")?;
        }
        answers.push_str(&answer)?;
    }
    Ok(answers)
}

fn answer(
    alloc: Global,
    environment: &mut Environment,
    operation: &str,
) -> Result<Option<String>, RowFault> {
    let (verb, words) = operation.split_once(' ').unwrap_or((operation, ""));
    match verb {
        "chain" => {
            chain(alloc, environment, words)?;
            Ok(None)
        }
        "call" => Ok(Some(environment.call(alloc, words)?)),
        _ => environment.operate(alloc, verb, words),
    }
}

/// Makes tables of which each but the last has a metatable whose entry for an event is the next table.
fn chain(alloc: Global, environment: &mut Environment, words: &str) -> Result<(), RowFault> {
    let (name, rest) = words.split_once(' ').ok_or(RowFault::Unreadable)?;
    let (count, event) = rest.split_once(' ').ok_or(RowFault::Unreadable)?;
    let Ok(count @ 1..) = count.parse::<u32>() else {
        return Err(RowFault::Unreadable);
    };
    let event = read_source(alloc, event)?;
    for number in 1..count {
        let table = chained_name(alloc, name, number)?;
        let next = chained_name(alloc, name, number + 1)?;
        environment.link(alloc, &table, &event, &next)?;
    }
    let last = chained_name(alloc, name, count)?;
    let _last = environment.table(alloc, &last)?;
    Ok(())
}

fn chained_name(alloc: Global, name: &str, number: u32) -> Result<Vec<u8>, AllocError> {
    let mut bytes = read_source(alloc, name)?;
    bytes.extend_from_slice(format!(in alloc; "{number}")?.as_bytes())?;
    Ok(bytes)
}
