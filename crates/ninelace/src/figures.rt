//! What the coins bring toward a payment for which none pay, what it needs, and what is missing: by the files, read once more.

ghost use Rattle.fund_files.specs.Chain.{IsChain};

use crate::json::{print, put, put_said, request_value};
use crate::pay::show_request;
use crate::plain::{show, text_made};
use command_end::Status;
use fund_base::Memory;
use fund_files::{Chain, read_chain};
use fund_gap::{Gap, GapKind, fund_gap, gap_text, share_gap};
use fund_shelf::{FileShelf, Shelf};
use pay_words::{Asked, Way};
use people_advice::none_advice;
use request_text::{Method, Request, read_request};
use serde_json::{Map, Value};
use std::alloc::Global;
use std::io;

/// The figures of a request on what the files hold; none where it replaces a payment, or no plan of it is made. The error is out of
/// memory.
fn gap_of(alloc: Global, held: &Chain, request: &Request, way: Way) -> Result<Option<Gap>, Memory>
    requires { IsChain held.now }
{
    request.keeps_rules();
    let (_, coins) = held.states_and_coins(alloc, request.rate)?;
    match way {
        Way::Share => share_gap(alloc, request, &coins),
        Way::Fund | Way::Wide => fund_gap(alloc, request, &held.wallet.change, coins),
    }
}

/// The request of what is asked for; none where it breaks a rule, or there is too little memory.
fn request_of(alloc: Global, asked: &Asked) -> Option<Request> {
    let Ok(text) = asked.request(alloc) else {
        return None;
    };
    match read_request(alloc, text.as_bytes()) {
        Ok(request) => Some(request),
        Err(_) => None,
    }
}

/// The figures of what is asked for, by the files of this shelf; none where these can't be read any more, or there is too little memory.
fn gap_in<H: Shelf>(alloc: Global, asked: &Asked, files: &mut H) -> Option<Gap> {
    let request = request_of(alloc, asked)?;
    let names = &asked.names;
    let Ok(held) = read_chain(alloc, names.wallet.as_str(), names.blocks.as_str(), files) else {
        return None;
    };
    match gap_of(alloc, &held, &request, asked.way) {
        Ok(gap) => gap,
        Err(Memory) => None,
    }
}

/// The same by the files of the system.
fn gap_seen(rt: &HostRuntime, asked: &Asked) -> Option<Gap> {
    let mut files = FileShelf::new(rt);
    gap_in(rt.alloc(), asked, &mut files)
}

/// What the coins are of the figures.
fn kind_of(asked: &Asked) -> GapKind {
    match asked.way {
        Way::Share => GapKind::Worth,
        Way::Fund | Way::Wide => match asked.settings.method {
            Method::Manual => GapKind::Listed,
            Method::Auto | Method::Changeless | Method::Weight | Method::Draw => GapKind::Spendable,
        },
    }
}

/// The sentence of the figures.
fn gap_sentence(alloc: Global, asked: &Asked, gap: &Gap) -> Result<String, Memory> {
    gap_text(alloc, kind_of(asked), gap)
}

/// A sum in satoshi, or null where it is above 64 bits.
fn sum_value(sum: u128) -> Value {
    if sum > u64::MAX as u128 {
        return Value::Null;
    }
    Value::from(sum as u64)
}

/// Puts the figures, in satoshi; null where there are none.
fn put_gap(alloc: Global, object: &mut Map<String, Value>, gap: Option<Gap>) -> Result<(), Memory> {
    let (brings, needs, missing) = match gap {
        Some(gap) => (
            sum_value(gap.brings),
            Value::from(gap.needs),
            sum_value(gap.missing),
        ),
        None => (Value::Null, Value::Null, Value::Null),
    };
    put(alloc, object, "brings", brings)?;
    put(alloc, object, "needs", needs)?;
    put(alloc, object, "missing", missing)
}

/// What is said where no coins pay, as JSON: the lines of the run, the sentence of its method, the figures and the request.
fn none_value(
    alloc: Global,
    asked: &Asked,
    lines: &str,
    gap: Option<Gap>,
) -> Result<Value, Memory> {
    let mut object = Map::new(alloc);
    let code = Status::NoSelection.code();
    put_said(alloc, &mut object, code, lines, Some(none_advice(asked)))?;
    put_gap(alloc, &mut object, gap)?;
    put(alloc, &mut object, "request", request_value(alloc, asked)?)?;
    Ok(Value::Object(object))
}

/// Shows that no coins pay as JSON.
fn show_none(rt: &HostRuntime, asked: &Asked, lines: &str, gap: Option<Gap>) -> io::Result<u8> {
    match none_value(rt.alloc(), asked, lines, gap) {
        Ok(value) => {
            print(rt, &value)?;
            Ok(Status::NoSelection.code())
        }
        Err(Memory) => show(rt, true, Status::Memory, b"fault memory\n"),
    }
}

/// Says that no coins pay: the lines of the run, what the coins bring, what is needed and what is missing, and what to do.
pub fn refuse_none(rt: &HostRuntime, asked: &Asked, lines: &str) -> io::Result<u8> {
    let gap = gap_seen(rt, asked);
    if asked.json {
        return show_none(rt, asked, lines, gap);
    }
    show_request(rt, asked)?;
    rt.print(lines)?;
    if let Some(gap) = gap {
        rt.println(text_made(gap_sentence(rt.alloc(), asked, &gap))?.as_str())?;
    }
    rt.println(none_advice(asked))?;
    Ok(Status::NoSelection.code())
}
