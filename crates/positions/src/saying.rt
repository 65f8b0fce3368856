// What a call says, on a line of its own, and rows of values.
use engine::Refusal;
use std::fmt::Display;
use std::io;

// A call that is refused.
pub fn print_refusal(rt: &HostRuntime, call: &str, refusal: Refusal) -> io::Result<()> {
    println!(rt; "{call}\trefused\t{refusal}")
}

// A call that is granted, and the strikes that it took.
pub fn print_strikes(rt: &HostRuntime, call: &str, said: Result<u32, Refusal>) -> io::Result<()> {
    match said {
        Ok(strikes) => println!(rt; "{call}\tgranted\t{strikes}"),
        Err(refusal) => print_refusal(rt, call, refusal),
    }
}

// A call that takes no strikes. Kept apart from the last: one function for both would need a type for "nothing to print".
pub fn print_answer(rt: &HostRuntime, call: &str, said: Result<(), Refusal>) -> io::Result<()> {
    match said {
        Ok(()) => println!(rt; "{call}\tgranted"),
        Err(refusal) => print_refusal(rt, call, refusal),
    }
}

// A name, and then values in a row, each after a tab.
pub fn print_row<T: Display>(rt: &HostRuntime, name: &str, values: &[T]) -> io::Result<()> {
    print!(rt; "{name}")?;
    for value in values {
        print!(rt; "\t{value}")?;
    }
    println!(rt; "")
}
