ghost use Rattle.std.specs.Prelude.{◌≡◌, ◌<◌, ◌++◌, OnOk, codes, option_map};
ghost use Rattle.tow_model.specs.Dates.{first_undated};
ghost use Rattle.tow_semantics.specs.Values.{attribute_of, or_empty, protocol, query_parameters};
ghost use Rattle.tow_model.specs.Fields.{bound_to};

use crate::content::{append_sent_or_dash, sent};
use crate::cookies::append_cookie;
use crate::digits::{append_decimal, append_dotted};
use crate::fields::{append_binding, append_values};
use crate::moment::append_moment;
use crate::parameters::append_parameter;
use std::alloc::AllocError;
use tow_model::{Attribute, Bytes, Record, Request, Version};

/// Writes the value of an attribute, whole, behind the bytes that are there. The moment is in seconds since 1970. Takes memory
/// for the value alone.
pub fn append_attribute(
    out: &mut Vec<u8>,
    attribute: &Attribute,
    request: &Request,
    exchange: &Record,
    moment: u64,
) -> Result<(), AllocError>
    requires dated { moment < first_undated }
    ensures { OnOk result (out.new.items
        ≡ out.old.items ++ attribute_of attribute.now request.now exchange.now moment) }
{
    match attribute {
        Attribute::Method => out.extend_from_slice(request.method.as_slice()),
        Attribute::RequestUrl => out.extend_from_slice(request.url.as_slice()),
        Attribute::RelativePath => out.extend_from_slice(exchange.path.as_slice()),
        Attribute::Query => append_query(out, &exchange.query),
        Attribute::Status => append_decimal(out, u64::from(exchange.status)),
        Attribute::RequestLine => append_request_line(out, request),
        Attribute::Protocol => out.extend_from_slice(protocol(request.version)),
        Attribute::RemoteIp | Attribute::RemoteHost => append_dotted(out, request.peer),
        Attribute::Ident | Attribute::User => out.extend_from_slice(b"-"),
        Attribute::Moment => append_moment(out, moment),
        Attribute::Sent => append_decimal(out, sent(request, exchange)),
        Attribute::SentOrDash => append_sent_or_dash(out, request, exchange),
        Attribute::RequestField(name) => append_values(out, &request.fields, name),
        Attribute::ResponseField(name) => append_values(out, &exchange.fields, name),
        Attribute::Param(name) => append_parameter_of(out, &exchange.query, name),
        Attribute::Cookie(name) => append_cookie(out, request.fields.as_slice(), name.as_slice()),
        Attribute::Context(name) => append_binding(out, &exchange.context, name),
    }
}

/// Writes the query behind its `?`, where there is one.
fn append_query(out: &mut Vec<u8>, query: &Option<Bytes>) -> Result<(), AllocError>
    ensures { OnOk result (out.new.items
        ≡ out.old.items ++ or_empty (option_map (λ q. codes "?" ++ q) query.now)) }
{
    if let Some(query) = query {
        out.extend_from_slice(b"?")?;
        out.extend_from_slice(query.as_slice())?;
    }
    Ok(())
}

/// Writes the request line without its line break (RFC 9112, section 3).
fn append_request_line(out: &mut Vec<u8>, request: &Request) -> Result<(), AllocError>
    ensures { OnOk result (out.new.items
        ≡ out.old.items ++ request.now.method ++ codes " " ++ request.now.target ++ codes " "
        ++ protocol request.now.version) }
{
    out.extend_from_slice(request.method.as_slice())?;
    out.extend_from_slice(b" ")?;
    out.extend_from_slice(request.target.as_slice())?;
    out.extend_from_slice(b" ")?;
    out.extend_from_slice(protocol(request.version))
}

/// A version as a request line has it (RFC 9112, section 2.3).
fn protocol(version: Version) -> &'static [u8]
    ensures { result.now ≡ protocol version }
{
    match version {
        Version::V10 => b"HTTP/1.0",
        Version::V11 => b"HTTP/1.1",
    }
}

/// Writes a query parameter's value, where there is a query.
fn append_parameter_of(
    out: &mut Vec<u8>,
    query: &Option<Bytes>,
    name: &Bytes,
) -> Result<(), AllocError>
    ensures { OnOk result (out.new.items
        ≡ out.old.items ++ or_empty (bound_to name.now (query_parameters query.now))) }
{
    match query {
        Some(query) => append_parameter(out, query.as_slice(), name.as_slice()),
        None => Ok(()),
    }
}
