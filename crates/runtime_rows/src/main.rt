// Reads rows of operations, as `set t 'x 3 ; get t 'x`, and prints behind each row what its operations answer over a heap of
// its own. A line that is empty or begins with `#` is printed alone. Operations are `set T K V`, `meta T M` and
// `chain NAME COUNT EVENT`, which have no answer, the operators, as `add A B`, `callee F`, `raw T K`, `border T`, and
// `call NAME A ..` of a built-in function. Of values, `'TEXT` is a text, `@NAME` a built-in function, `%NAME` a host, `*N` a
// closure, and a word of no other form a table.
#![tactic(auto)]

mod answers;
mod environment;
mod fault;
mod operations;
mod row;

use row::answer_row;
use std::io;

fn main(rt: HostRuntime) -> io::Result<()> {
    for line in rt.lines(rt.alloc()) {
        let row = line?;
        let text = row.as_str();
        if text.is_empty() || text.starts_with('#') {
            println!(rt; "{text}")?;
        } else {
            println!(rt; "{text}  =>  {}", answer_row(rt.alloc(), text)?)?;
        }
    }
    Ok(())
}
