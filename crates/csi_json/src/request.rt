//! A line by which an orchestrator is asked: a command, a timeout, the loss of a node, or a frame that came. It is read from JSON. This profile's own.
ghost use Rattle.std.specs.Prelude.{◌≡◌, Ok, IfOk, IfErr};
ghost use Rattle.serde_json.specs.Read.{read};
ghost use Rattle.serde_json.specs.View.{view};
ghost use Rattle.csi_json.specs.Private.Json.{Reads};
ghost use Rattle.csi_json.specs.Public.Json.{only_member as sole};
ghost use Rattle.csi_json.specs.Public.Requests.{request_shown, bytes_of, request_at as at_key, request_of, request_read};
ghost use Rattle.csi_json.specs.Public.Requests.{line_request, IsAsked, IsRequestFault};

use crate::events::event_at;
use crate::hexadecimal::hex_bytes;
use crate::request_fault::RequestFault;
use crate::values::{Flaw, only_member, text};
use csi_types::Event;
use serde_json::Value;
use std::alloc::Global;

/// What a line asks.
#[derive(Drop)]
pub enum Request {
    /// A command, a timeout or a loss: `Create`, `Use`, `Stop`, `Delete`, `Timeout` or `Lose`.
    Command(Event),
    /// To take these bytes, a frame that came. Whether they are a frame isn't judged yet.
    Reply(Vec<u8>),
}

// The bytes that a value says.
#[tactic(auto, unfolding(crate::specs::Public::Requests::bytes_of))]
fn bytes_at(alloc: Global, value: &Value) -> Result<Vec<u8>, Flaw>
    ensures { Reads (λ bytes. bytes.items) result (bytes_of (view value.now)) }
{
    hex_bytes(alloc, text(value)?)
}

// The request at this key of an object.
#[tactic(auto, unfolding(crate::specs::Public::Requests::request_at))]
fn request_at(alloc: Global, key: &str, value: &Value) -> Result<Request, RequestFault>
    ensures read { IfOk result (λ request. at_key key.now (view value.now) ≡ Ok (request_shown request)) }
    ensures fault { IfErr result (IsRequestFault (at_key key.now (view value.now))) }
{
    if key == "reply" {
        return match bytes_at(alloc, value) {
            Ok(bytes) => Ok(Request::Reply(bytes)),
            Err(Flaw::NoMemory) => Err(RequestFault::NoMemory),
            Err(Flaw::Bad) => Err(RequestFault::BadFrame),
        };
    }
    let is_command = matches!(
        key,
        "create" | "use" | "stop" | "delete" | "timeout" | "lose"
    );
    if !is_command {
        return Err(RequestFault::BadLine);
    }
    match event_at(alloc, key, value) {
        Ok(event) => Ok(Request::Command(event)),
        Err(Flaw::NoMemory) => Err(RequestFault::NoMemory),
        Err(Flaw::Bad) => Err(RequestFault::BadLine),
    }
}

// The request that a value is.
fn request_in(alloc: Global, value: &Value) -> Result<Request, RequestFault>
    ensures read { IfOk result (λ request. request_of (sole (view value.now)) ≡ Ok (request_shown request)) }
    ensures fault { IfErr result (IsRequestFault (request_of (sole (view value.now)))) }
{
    match only_member(value) {
        Some((key, value)) => request_at(alloc, key, value),
        None => Err(RequestFault::BadLine),
    }
}

// The request that a text says.
fn text_request(alloc: Global, text: &str) -> Result<Request, RequestFault>
    ensures read { IfOk result (λ request. request_read (read text.now) ≡ Ok (request_shown request)) }
    ensures fault { IfErr result (IsRequestFault (request_read (read text.now))) }
{
    match Value::from_str(alloc, text) {
        Ok(value) => request_in(alloc, &value),
        Err(error) if error.is_memory() => Err(RequestFault::NoMemory),
        Err(_) => Err(RequestFault::NotJson),
    }
}

/// The request that a line says, without its newline: one object of JSON with one key. That is a schedule's `create`, `use`, `stop`,
/// `delete`, `timeout` or `lose`, or `reply` with the bytes of a frame in hexadecimal. `NotJson` where the line isn't JSON in UTF-8,
/// `BadFrame` where a reply isn't hexadecimal, and else `BadLine`. `NoMemory` can come at any step.
pub fn read_request(alloc: Global, line: &[u8]) -> Result<Request, RequestFault>
    ensures read { IfOk result (λ request. line_request line.now ≡ Ok (request_shown request)) }
    ensures asked { IfOk result (λ request. IsAsked (request_shown request)) }
    ensures fault { IfErr result (IsRequestFault (line_request line.now)) }
{
    match str::from_utf8(line) {
        Ok(text) => text_request(alloc, text),
        Err(_) => Err(RequestFault::NotJson),
    }
}
