//! Which event lines are read, and the first fault of each.
use crate::checks::is;
use crate::reading::{deep_line, event_of};
use reo_script::{Event, EventFault};
use reo_values::Value;
use std::alloc::Global;

/// What a line is answered: the event, or the fault.
#[derive(Clone, Copy)]
enum Answer {
    Nothing,
    Write(usize, i64),
    Take(usize),
    Withdraw(usize),
    Round,
    End,
    Form,
    NoPort,
    WrongWay,
    Outside(usize),
}

use Answer::{End, Form, NoPort, Nothing, Outside, Round, Take, Withdraw, Write, WrongWay};

const ANSWERS: &[(&str, Answer)] = &[
    ("", Nothing),
    (" \t # none", Nothing),
    ("write a 5", Write(0, 5)),
    (" write\tc -0 # nought", Write(2, 0)),
    ("write a 0000099", Write(0, 99)),
    ("take b", Take(1)),
    ("take d", Take(3)),
    ("withdraw a", Withdraw(0)),
    ("withdraw d", Withdraw(3)),
    ("round", Round),
    ("end", End),
    // tokens too many, too few, and others
    ("write a 5;", Form),
    ("write a 5 6", Form),
    ("write a", Form),
    ("write 5", Form),
    ("take", Form),
    ("take b b", Form),
    ("take write", Form),
    ("withdraw", Form),
    ("withdraw a b", Form),
    ("round round", Form),
    ("end a", Form),
    ("rounds", Form),
    ("a", Form),
    ("component x { }", Form),
    // bytes without tokens, and 19 digits
    ("take $", Form),
    ("write a 1000000000000000000", Form),
    // the three names may name ports, and no port of these has them
    ("take round", NoPort),
    ("withdraw end", NoPort),
    ("write withdraw 1", NoPort),
    // one fault before another
    ("write e true", NoPort),
    ("take e", NoPort),
    ("withdraw e", NoPort),
    ("write b true", WrongWay),
    ("write d 1", WrongWay),
    ("take a", WrongWay),
    ("write a 100", Outside(0)),
    ("write c true", Outside(2)),
    ("write a -1", Outside(0)),
];

fn is_event(event: &Event, answer: Answer) -> bool {
    match (event, answer) {
        (Event::Nothing, Nothing) | (Event::Round, Round) | (Event::End, End) => true,
        (Event::Write { port, item }, Write(at, number)) => {
            *port == at && matches!(item, Value::Int(found) if *found == number)
        }
        (Event::Take { port }, Take(at)) => *port == at,
        (Event::Withdraw { port }, Withdraw(at)) => *port == at,
        _ => false,
    }
}

fn is_fault(fault: &EventFault, answer: Answer) -> bool {
    match (fault, answer) {
        (EventFault::Form, Form)
        | (EventFault::NoPort, NoPort)
        | (EventFault::WrongWay, WrongWay) => true,
        (EventFault::ItemOutside { port }, Outside(at)) => *port == at,
        _ => false,
    }
}

fn is_answered(alloc: Global, line: &[u8], answer: Answer) -> bool {
    match event_of(alloc, line) {
        Ok(event) => is_event(&event, answer),
        Err(fault) => is_fault(&fault, answer),
    }
}

/// Whether an item in so many parentheses is answered so.
fn is_deep(alloc: Global, times: usize, answer: Answer) -> bool {
    match deep_line(alloc, times) {
        Ok(line) => is_answered(alloc, line.as_slice(), answer),
        Err(_) => false,
    }
}

#[test]
fn lines_have_their_answers(rt: HostRuntime) {
    let alloc = rt.alloc();
    for (line, answer) in ANSWERS {
        is(&rt, is_answered(alloc, line.as_bytes(), *answer), line);
    }
    is(&rt, is_deep(alloc, 64, Outside(0)), "sixty-four levels");
    is(&rt, is_deep(alloc, 65, Form), "sixty-five levels");
}
