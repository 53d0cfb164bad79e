//! What a line asks for.
use crate::offers::{Ports, ports_of};

/// What a colouring is searched by.
#[derive(Clone, Copy)]
pub enum By {
    Values,
    Marks,
}

/// The kind and size of a circuit, which of its ports offer, how many times it is coloured, and by
/// which search.
#[derive(Clone, Copy)]
pub struct Request<'a> {
    pub kind: &'a str,
    pub size: u16,
    pub offering: Ports,
    pub times: u32,
    pub by: By,
}

/// The search that a word names; where no word stands it is the one by values.
fn search_of(word: Option<&str>) -> Option<By> {
    match word {
        None => Some(By::Values),
        Some("marks") => Some(By::Marks),
        Some(_) => None,
    }
}

/// What a line of four words or five asks for, if it asks for anything.
pub fn request_of(line: &str) -> Option<Request<'_>> {
    let mut words = line.split_whitespace();
    let kind = words.next()?;
    let size = words.next()?.parse::<u16>().ok()?;
    let offering = ports_of(words.next()?)?;
    let times = words.next()?.parse::<u32>().ok()?;
    let by = search_of(words.next())?;
    Some(Request {
        kind,
        size,
        offering,
        times,
        by,
    })
}
