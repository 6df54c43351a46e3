//! The clauses between a parenthesis and its end, or of a whole text, as they are read.

ghost use Rattle.std.specs.Prelude.{◌≡◌, ◌++◌, IfOk, map};
ghost use Rattle.qm_parser.specs.Levels.{add_operand, closed, complete, extended, fresh, join, is_lone, level_query, named_query, nameless, query_of_clauses, signless};
ghost use Rattle.qm_parser.specs.LevelViews.{last_of, level_of, name_of};
ghost use Rattle.qm_parser.specs.Reading.{Gives};
ghost use Rattle.qm_parser.specs.Views.{clause_of, query_of};

use crate::parse_error::{ParseError, refuse};
use crate::parsed_query::{ParsedQuery, Sign};
use crate::refusal_kind::RefusalKind;
use std::alloc::{AllocError, Global};

/// What an `AND` would join the next clause to.
#[derive(Drop)]
pub(crate) enum LastClause {
    /// No clause was read yet.
    Nothing,
    /// This clause, and its sign, if it had one.
    One(Option<Sign>, ParsedQuery),
    /// The clauses that an `AND` has joined already.
    Chain(Vec<(Sign, ParsedQuery)>),
}

/// The clauses that were read behind a parenthesis that isn't ended, or from the start of the text.
#[derive(Drop)]
pub(crate) struct OpenLevel {
    /// The place of the parenthesis.
    pub opened: usize,
    /// The clauses that no `AND` can join any more.
    pub clauses: Vec<(Sign, ParsedQuery)>,
    /// The clause that an `AND` could join.
    pub last: LastClause,
    /// Whether an `AND` joins the next clause.
    pub joins: bool,
    /// The place of the `AND` or `OR` that waits for a clause.
    pub operator: Option<usize>,
    /// The sign that waits for a clause, and its place.
    pub sign: Option<(Sign, usize)>,
    /// The name of a field that waits for what is to be found there, and its place.
    pub name: Option<(String, usize)>,
}

impl OpenLevel {
    /// No clause, behind a parenthesis at this place.
    pub(crate) fn new(alloc: Global, opened: usize) -> OpenLevel
        ensures { level_of result ≡ fresh opened }
    {
        OpenLevel {
            opened,
            clauses: Vec::new(alloc),
            last: LastClause::Nothing,
            joins: false,
            operator: None,
            sign: None,
            name: None,
        }
    }

    /// That no name waits.
    pub(crate) fn nameless(&self) -> Result<(), ParseError>
        ensures { Gives (λ u. u) result (nameless (level_of self.now)) }
    {
        match &self.name {
            Some((_, place)) => refuse(RefusalKind::FieldWithoutValue, *place),
            None => Ok(()),
        }
    }

    /// That no name and no sign waits.
    pub(crate) fn signless(&self) -> Result<(), ParseError>
        ensures { Gives (λ u. u) result (signless (level_of self.now)) }
    {
        self.nameless()?;
        match self.sign {
            Some((_, place)) => refuse(RefusalKind::SignWithoutClause, place),
            None => Ok(()),
        }
    }

    /// That nothing waits for a clause.
    pub(crate) fn complete(&self) -> Result<(), ParseError>
        ensures { Gives (λ u. u) result (complete (level_of self.now)) }
    {
        self.signless()?;
        match self.operator {
            Some(place) => refuse(RefusalKind::OperatorWithoutSide, place),
            None => Ok(()),
        }
    }

    /// The level where an `AND`, which joins, or an `OR` at this place waits for a clause.
    pub(crate) fn join(self, joins: bool, place: usize) -> Result<OpenLevel, ParseError>
        ensures { Gives level_of result (join joins place (level_of self)) }
    {
        self.complete()?;
        if let LastClause::Nothing = self.last {
            return refuse(RefusalKind::OperatorWithoutSide, place);
        }
        let mut level = self;
        level.joins = joins;
        level.operator = Some(place);
        Ok(level)
    }

    /// The level with this query as its next clause, of the sign and under the name that wait.
    pub(crate) fn add_operand(
        self,
        alloc: Global,
        query: ParsedQuery,
    ) -> Result<OpenLevel, AllocError>
        ensures { IfOk result (λ level. level_of level ≡ add_operand (query_of query) (level_of self)) }
    {
        let OpenLevel {
            opened,
            clauses,
            last,
            joins,
            operator: _,
            sign,
            name,
        } = self;
        let query = name_query(alloc, name, query)?;
        let sign = sign.map(|s| s.0);
        let mut level = OpenLevel::new(alloc, opened);
        if joins {
            level.clauses = clauses;
            level.last = extend(alloc, last, sign, query)?;
        } else {
            level.clauses = close(clauses, last)?;
            level.last = LastClause::One(sign, query);
        }
        Ok(level)
    }

    /// What the clauses of the level say.
    pub(crate) fn query(self) -> Result<ParsedQuery, AllocError>
        ensures { IfOk result (λ query. query_of query ≡ level_query (level_of self)) }
    {
        let OpenLevel {
            opened: _,
            clauses,
            last,
            joins: _,
            operator: _,
            sign: _,
            name: _,
        } = self;
        Ok(join_clauses(close(clauses, last)?))
    }
}

// The query in this field, if there is one.
fn name_query(
    alloc: Global,
    name: Option<(String, usize)>,
    query: ParsedQuery,
) -> Result<ParsedQuery, AllocError>
    ensures { IfOk result (λ named. query_of named ≡ named_query (name_of name) (query_of query)) }
{
    match name {
        Some((name, _)) => Ok(ParsedQuery::Field(name, Box::new(alloc, query)?)),
        None => Ok(query),
    }
}

// The last clause, joined to the next one by an `AND`.
fn extend(
    alloc: Global,
    last: LastClause,
    sign: Option<Sign>,
    query: ParsedQuery,
) -> Result<LastClause, AllocError>
    ensures { IfOk result (λ joined. last_of joined ≡ extended (last_of last) sign (query_of query)) }
{
    match last {
        LastClause::Nothing => Ok(LastClause::One(sign, query)),
        LastClause::One(first, before) => {
            let mut chain = Vec::with_capacity(alloc, 2)?;
            chain.push((first.unwrap_or(Sign::Must), before))?;
            chain.push((sign.unwrap_or(Sign::Must), query))?;
            Ok(LastClause::Chain(chain))
        }
        LastClause::Chain(mut chain) => {
            chain.push((sign.unwrap_or(Sign::Must), query))?;
            Ok(LastClause::Chain(chain))
        }
    }
}

// The clauses, and behind them the last one, which no `AND` joins any more.
fn close(
    mut clauses: Vec<(Sign, ParsedQuery)>,
    last: LastClause,
) -> Result<Vec<(Sign, ParsedQuery)>, AllocError>
    ensures { IfOk result (λ all. map clause_of all.items ≡ map clause_of clauses.items ++ closed (last_of last)) }
{
    match last {
        LastClause::Nothing => Ok(clauses),
        LastClause::One(sign, query) => {
            clauses.push((sign.unwrap_or(Sign::Should), query))?;
            Ok(clauses)
        }
        LastClause::Chain(chain) => {
            clauses.push((Sign::Should, ParsedQuery::Boolean(chain)))?;
            Ok(clauses)
        }
    }
}

// What these clauses say: one that only should match says what it says alone.
fn join_clauses(mut clauses: Vec<(Sign, ParsedQuery)>) -> ParsedQuery
    ensures { query_of result ≡ query_of_clauses (map clause_of clauses.items) }
{
    if clauses.is_empty() {
        return ParsedQuery::Empty;
    }
    if is_lone(clauses.as_slice()) {
        if let Some((_, query)) = clauses.pop() {
            return query;
        }
    }
    ParsedQuery::Boolean(clauses)
}

// Whether this is one clause that only should match.
fn is_lone(clauses: &[(Sign, ParsedQuery)]) -> bool
    ensures { result ≡ is_lone (map clause_of clauses.now) }
{
    match clauses {
        [(Sign::Should, _)] => true,
        _ => false,
    }
}
