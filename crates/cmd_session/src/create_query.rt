//! What a statement asks for.
ghost use Rattle.std.specs.Prelude.{◌≡◌, ◌<◌, false, IfOk, length, nat_le};
ghost use Rattle.std.specs.List.{list_any};
ghost use Rattle.std.specs.Str.{bytes_eq};
ghost use Rattle.sem_query.specs.Query.{IsWithinLimits};
ghost use Rattle.sql_parser.specs.Resolution.{IsTaken, HasNamed, named_select};
ghost use Rattle.cmd_session.specs.Requests as requests;
ghost use Rattle.cmd_session.specs.Requests.{query_of};
ghost use Rattle.cmd_session.specs.Session.{names_in};

use arrayvec::ArrayVec;
use exec_registry::Registry;
use sem_query::Query;
use sql_catalog::Catalog;
use sql_parser::{SelectAst, resolve};
use sql_replies::{Refusal, resolve_refusal};
use sql_text::Name;

/// Returns whether a live query has the name.
pub fn is_live(registry: &Registry, name: &Name) -> bool
    ensures names { result ≡ requests.is_live (names_in registry.now) name.now }
    ensures live { result ≡ list_any (λ l. bytes_eq l.name name.now) registry.now.live }
{
    registry.has(name)
}

// Whether as many queries are live as may be.
fn is_full(registry: &Registry) -> bool
    ensures full { result ≡ nat_le 64 (length (names_in registry.now)) }
    ensures room { result ≡ nat_le 64 (length registry.now.live) }
{
    registry.len() >= Registry::MOST_QUERIES
}

/// Returns the query of CREATE QUERY, or the first word that refuses the line.
pub fn find_query(
    catalog: &Catalog,
    registry: &Registry,
    name: &Name,
    select: &SelectAst,
) -> Result<Query, Refusal>
    requires { IsTaken select.now }
    ensures request { query_of catalog.now (names_in registry.now) name.now select.now ≡ result }
    ensures named { IfOk result (λ query. HasNamed catalog.now query) }
    ensures back { IfOk result (λ query. named_select catalog.now query ≡ select.now) }
    ensures room { IfOk result (λ _. length registry.now.live < 64) }
    ensures new { IfOk result (λ _. list_any (λ l. bytes_eq l.name name.now) registry.now.live ≡ false) }
{
    if is_live(registry, name) {
        return Err(Refusal::Duplicate);
    }
    if is_full(registry) {
        return Err(Refusal::TooMany);
    }
    match resolve(select, catalog) {
        Err(error) => Err(resolve_refusal(error)),
        Ok(query) => Ok(query),
    }
}

/// Returns the streams of a query, by their numbers.
pub(crate) fn streams_of(query: &Query) -> ArrayVec<u8, 4>
    ensures value { result.items ≡ query.now.from }
    ensures limits { IsWithinLimits query.now }
{
    let mut from = ArrayVec::new();
    // There is room, so this is done.
    let _whole = from.try_extend_from_slice(query.from()).is_ok();
    from
}
