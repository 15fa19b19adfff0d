//! One line of a lane, drawn from a state.
ghost use Rattle.std.specs.Prelude.{◌≡◌, [], ◌∷◌, IfOk};
ghost use Rattle.map_history.specs.Lines.{line_text};
ghost use Rattle.map_history.specs.Operation.{operation_of};
ghost use Rattle.gen_law.specs.Drawing.{ask_drawn, digit, key_drawn, line_drawn, next_state, value_written};

use key_tuple::{Key, NoMemory, Value};
use map_history::{Line, Op};
use std::alloc::Global;

const MULTIPLIER: u64 = 6_364_136_223_846_793_005;

const INCREMENT: u64 = 1_442_695_040_888_963_407;

/// The state that comes after a state.
pub(crate) fn next_state(state: u64) -> u64
    ensures { result ≡ next_state state }
{
    state.wrapping_mul(MULTIPLIER).wrapping_add(INCREMENT)
}

/// The line of a lane that a state gives.
pub(crate) fn line_drawn(alloc: Global, lane: u32, line: u32, state: u64) -> Result<Line, NoMemory>
    ensures { IfOk result (λ it. line_text it ≡ line_drawn lane line state) }
{
    let op = op_drawn(alloc, lane, line, state >> 33)?;
    Ok(Line { line, op })
}

fn op_drawn(alloc: Global, lane: u32, line: u32, drawn: u64) -> Result<Op, NoMemory>
    ensures { IfOk result (λ op.
        operation_of op ≡ record { index = 0; ask = ask_drawn lane line drawn }) }
{
    let key = key_drawn(alloc, lane, drawn)?;
    match drawn % 8 {
        0..=2 => {
            let value = value_written(alloc, line)?;
            Ok(Op::Put {
                index: 0,
                key,
                value,
            })
        }
        3 => {
            let value = value_written(alloc, line)?;
            Ok(Op::Set {
                index: 0,
                key,
                value,
            })
        }
        4 => Ok(Op::Del { index: 0, key }),
        _ => Ok(Op::Get { index: 0, key }),
    }
}

fn key_drawn(alloc: Global, lane: u32, drawn: u64) -> Result<Key, NoMemory>
    ensures { IfOk result (λ key. key.tuple ≡ key_drawn lane drawn ∷ []) }
{
    let lane = u64::from(lane);
    let place = drawn / 8 % 1000;
    let bytes = [
        b'k',
        digit(lane / 10),
        digit(lane),
        b'-',
        digit(place / 1000),
        digit(place / 100),
        digit(place / 10),
        digit(place),
    ];
    match Key::from_parts(Vec::from_array(alloc, bytes)?, &[8]) {
        Ok(key) => Ok(key),
        Err(_) => unreachable!(),
    }
}

fn value_written(alloc: Global, line: u32) -> Result<Value, NoMemory>
    ensures { IfOk result (λ value. value ≡ value_written line) }
{
    let text = format!(in alloc; "v{line}")?;
    match Value::try_new(text.into_bytes()) {
        Ok(value) => Ok(value),
        Err(_) => unreachable!(),
    }
}

/// The last decimal digit of a number.
fn digit(number: u64) -> u8
    ensures { result ≡ digit number }
{
    b'0' + (number % 10) as u8
}
