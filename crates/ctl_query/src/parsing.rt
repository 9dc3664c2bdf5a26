//! Words to a query.

ghost use Rattle.std.specs.Prelude.{◌≡◌, ◌≤◌, false, ◌++◌, ◌∷◌, [], ℕ, List, IfOk, OnOk, IfErr, map, filter, length, not, codes, Ok};
ghost use Rattle.std.specs.Str.{bytes_eq};
ghost use Rattle.std.specs.List.{list_all, prefix_len};
ghost use Rattle.ctl_relation.specs.Names.{is_name};
ghost use Rattle.ctl_store.specs.declared.refusal.Refusal.TheVariants as refusal;
ghost use Rattle.ctl_filter.specs.Query.{filter_of};
ghost use Rattle.ctl_filter.specs.Read.{Reads};
ghost use Rattle.ctl_query.specs.NameSet.{is_among};
ghost use Rattle.ctl_query.specs.Asked.{asked_row};
ghost use Rattle.ctl_query.specs.declared.query_name.CacheQuery.TheVariants as query;
ghost use Rattle.ctl_query.specs.Query.{Query as Asked, PackageNames, is_option, is_argument, is_important, is_installed_alone};
ghost use Rattle.ctl_query.specs.Query.{depends_options, shows_all};
ghost use Rattle.ctl_query.specs.Query.{is_before_equals, options_of, version_asked, row_of_parts, row_asked, rows_asked};
ghost use Rattle.ctl_query.specs.Query.{some_names_asked, query_by, query_in, asked_filter};
ghost use Rattle.ctl_query.specs.Query.{query_of, query_behind, begin_query};
ghost use Rattle.ctl_query.specs.QueryRead.{ReadsQuery, query_text};

use crate::query::{AskedRow, DependsOptions, Query};
use crate::query_name::{CacheQuery, QueryName};
use ctl_filter::parse_filter;
use ctl_relation::{Bytes, Version, VersionFault, is_name};
use ctl_store::Refusal;
use std::alloc::{AllocError, Global};
use std::mem::replace;

fn is_option(word: &[u8]) -> bool
    ensures { result ≡ is_option word.now }
{
    match word {
        [] => false,
        [byte, ..] => *byte == b'-',
    }
}

/// Copies of the words that are options.
fn options_in(alloc: Global, words: &[Bytes]) -> Result<Vec<Bytes>, AllocError>
    ensures { IfOk result (λ options. options.items ≡ filter is_option words.now) }
{
    let mut options = Vec::new(alloc);
    for word in words {
        if is_option(word.as_slice()) {
            options.push(Bytes::from_slice(alloc, word.as_slice())?)?;
        }
    }
    Ok(options)
}

/// Leaves the words that are no options.
fn keep_arguments(words: &mut Vec<Bytes>)
    ensures { words.new.items ≡ filter is_argument words.old.items }
{
    words.retain(|word| !is_option(word.as_slice()));
}

/// Whether options are those of a query.
fn are_options_of(name: CacheQuery, options: &[Bytes]) -> bool
    ensures { result ≡ list_all (is_among (options_of name)) options.now }
{
    options
        .iter()
        .all(|option| name.has_option(option.as_slice()))
}

/// Whether an option is among these.
fn has_option(options: &[Bytes], option: &[u8]) -> bool
    ensures { result ≡ is_among options.now option.now }
{
    options.iter().any(|other| option == other.as_slice())
}

fn are_names(words: &[Bytes]) -> bool
    ensures { result ≡ list_all is_name words.now }
{
    for word in words {
        if !is_name(word.as_slice()) {
            return false;
        }
    }
    true
}

fn is_important(options: &[Bytes]) -> bool
    ensures { result ≡ is_important options.now }
{
    has_option(options, b"-i") || has_option(options, b"--important")
}

fn is_installed_alone(options: &[Bytes]) -> bool
    ensures { result ≡ is_installed_alone options.now }
{
    has_option(options, b"--installed")
}

fn depends_options(options: &[Bytes]) -> DependsOptions
    ensures { result ≡ depends_options options.now }
{
    DependsOptions {
        important: is_important(options),
        installed: is_installed_alone(options),
    }
}

fn is_all(option: &[u8]) -> bool
    ensures { result ≡ not (bytes_eq option.now (codes "--no-all-versions")) }
{
    option != b"--no-all-versions".as_slice()
}

/// Of the options of `show` the last one counts.
fn shows_all(options: &[Bytes]) -> bool
    ensures { result ≡ shows_all options.now }
{
    options
        .iter()
        .fold(true, |_, option| is_all(option.as_slice()))
}

// How many bytes stand before the first `=`.
fn name_len(word: &[u8]) -> usize
    ensures len { result ≡ prefix_len is_before_equals word.now }
    ensures within { result ≤ length word.now }
{
    for (i, byte) in word.iter().enumerate() {
        if *byte == b'=' {
            return i;
        }
    }
    word.len()
}

fn read_version(alloc: Global, text: &[u8]) -> Result<Version, Refusal>
    ensures { Reads (λ version. version) result (version_asked text.now) }
{
    match Version::parse(alloc, text) {
        Ok(version) => Ok(version),
        Err(VersionFault::Memory) => Err(Refusal::Memory),
        Err(_) => Err(Refusal::Version),
    }
}

fn row_of_parts(alloc: Global, name: &[u8], behind: &[u8]) -> Result<AskedRow, Refusal>
    ensures { Reads asked_row result (row_of_parts name.now behind.now) }
{
    let version = match behind {
        [] => None,
        [_, version @ ..] => Some(read_version(alloc, version)?),
    };
    let name = Bytes::from_slice(alloc, name)?;
    Ok(AskedRow { name, version })
}

/// `NAME`, or `NAME=VERSION` cut at the first `=`.
fn row_asked(alloc: Global, word: &[u8]) -> Result<AskedRow, Refusal>
    ensures { Reads asked_row result (row_asked word.now) }
{
    let (name, behind) = word.split_at(name_len(word));
    if !is_name(name) {
        return Err(Refusal::Name);
    }
    row_of_parts(alloc, name, behind)
}

fn push_row(rows: &mut Vec<AskedRow>, row: AskedRow) -> Result<(), AllocError>
    ensures { OnOk result (rows.new.items ≡ rows.old.items ++ row ∷ []) }
{
    rows.push(row)?;
    Ok(())
}

/// The first refusal counts, from left to right.
fn rows_asked(alloc: Global, words: &[Bytes]) -> Result<Vec<AskedRow>, Refusal>
    ensures { Reads (λ rows. map asked_row rows.items) result (rows_asked words.now) }
{
    let mut rows = Vec::new(alloc);
    let mut rest = words;
    'words: while let Some((word, others)) = rest.split_first() {
        let row = row_asked(alloc, word.as_slice())?;
        push_row(&mut rows, row)?;
        rest = others;
    }
    Ok(rows)
}

/// The words that stood there, in whose place none are left.
fn taken(alloc: Global, words: &mut Vec<Bytes>) -> Vec<Bytes>
    ensures { result.items ≡ words.old.items }
{
    replace(words, Vec::new(alloc))
}

/// The names that stood there, one at least.
fn some_names(alloc: Global, words: &mut Vec<Bytes>) -> Result<Vec<Bytes>, Refusal>
    ensures { (query : List (List ℕ) → Asked) → Reads (λ names. query names.items) result (some_names_asked query words.old.items) }
{
    if words.is_empty() {
        return Err(Refusal::Usage);
    }
    if !are_names(words) {
        return Err(Refusal::Name);
    }
    Ok(taken(alloc, words))
}

/// The prefix that names are to begin with: all begin with the empty one.
fn prefix_in(alloc: Global, words: &[Bytes]) -> Result<Bytes, Refusal>
    ensures { (options : List (List ℕ)) → Reads (λ prefix. PackageNames (is_among options (codes "--all-names")) prefix) result
        (query_by query.PackageNames options words.now) }
{
    match words {
        [] => Ok(Bytes::from_vec(Vec::new(alloc))),
        [prefix] => Ok(Bytes::from_slice(alloc, prefix.as_slice())?),
        _ => Err(Refusal::Usage),
    }
}

/// What a query asks for by its options, which are its own, and by its arguments. These are lent, so that what is left of them is
/// let go in one place.
fn query_by(
    alloc: Global,
    name: CacheQuery,
    options: &[Bytes],
    arguments: &mut Vec<Bytes>,
) -> Result<Query, Refusal>
    ensures { Reads query_text result (query_by name options.now arguments.old.items) }
{
    match name {
        CacheQuery::PackageNames => {
            let prefix = prefix_in(alloc, arguments)?;
            Ok(Query::PackageNames(has_option(options, b"--all-names"), prefix))
        }
        CacheQuery::Show => {
            if arguments.is_empty() {
                return Err(Refusal::Usage);
            }
            Ok(Query::Show(shows_all(options), rows_asked(alloc, arguments)?))
        }
        CacheQuery::Depends => {
            let names = some_names(alloc, arguments)?;
            Ok(Query::Depends(depends_options(options), names))
        }
        CacheQuery::ReverseDepends => {
            let names = some_names(alloc, arguments)?;
            Ok(Query::ReverseDepends(is_installed_alone(options), names))
        }
        CacheQuery::Unmet => {
            if !arguments.is_empty() {
                return Err(Refusal::Usage);
            }
            Ok(Query::Unmet(is_important(options)))
        }
        CacheQuery::Policy => {
            if !are_names(arguments) {
                return Err(Refusal::Name);
            }
            Ok(Query::Policy(taken(alloc, arguments)))
        }
        CacheQuery::ShowPackage => Ok(Query::ShowPackage(some_names(alloc, arguments)?)),
    }
}

/// What a query asks for by its words. They are lent, and the names among them go into the query as they are: a script asks for
/// thousands at once.
fn query_in(alloc: Global, name: CacheQuery, words: &mut Vec<Bytes>) -> Result<Query, Refusal>
    ensures { Reads query_text result (query_in name words.old.items) }
{
    let options = options_in(alloc, words)?;
    if !are_options_of(name, &options) {
        return Err(Refusal::Usage);
    }
    keep_arguments(words);
    query_by(alloc, name, &options, words)
}

/// What the words of grep-dctrl(1) ask for.
fn filter_asked(alloc: Global, words: &[Bytes]) -> Result<Query, Refusal>
    ensures { ReadsQuery result (asked_filter (filter_of words.now)) }
{
    let filter = parse_filter(alloc, words)?;
    Ok(Query::Filter(filter))
}

/// What the words behind the name of a query ask for: its options and its arguments (apt-cache(8)), or the words of a filter
/// (grep-dctrl(1)). Names go into the query as they are, without a copy.
///
/// # Errors
///
/// The first of these: [`Refusal::Usage`], where an option is not one of the query's, or there are too many or too few
/// arguments; and, argument by argument from the left, [`Refusal::Name`] and [`Refusal::Version`], where one is no name or
/// version. Those of a filter are told at [`parse_filter`]. [`Refusal::Memory`] where memory is refused.
pub fn parse_words(alloc: Global, name: QueryName, words: Vec<Bytes>) -> Result<Query, Refusal>
    ensures { ReadsQuery result (query_behind name words.items) }
{
    let mut words = words;
    match name {
        QueryName::Filter => filter_asked(alloc, &words),
        QueryName::Cache(query) => {
            let query = query_in(alloc, query, &mut words)?;
            Ok(query)
        }
    }
}

fn copies(alloc: Global, words: &[Bytes]) -> Result<Vec<Bytes>, AllocError>
    ensures { IfOk result (λ copies. copies.items ≡ words.now) }
{
    let mut copies = Vec::with_capacity(alloc, words.len())?;
    for word in words {
        copies.push(Bytes::from_slice(alloc, word.as_slice())?)?;
    }
    Ok(copies)
}

/// What words ask for: the name of a query, and behind it what [`parse_words`] takes.
///
/// # Errors
///
/// [`Refusal::Command`], where there are no words or the first is no query's name; then those of [`parse_words`].
/// [`Refusal::Memory`] comes never in place of [`Refusal::Command`].
#[tactic(auto, unfolding(crate::specs::Query::begin_query))]
pub fn parse_query(alloc: Global, words: &[Bytes]) -> Result<Query, Refusal>
    ensures asked { ReadsQuery result (query_of words.now) }
    ensures no_query { begin_query words.now ≡ false → IfErr result (λ cause. cause ≡ refusal.Command) }
{
    let [name, words @ ..] = words else {
        return Err(Refusal::Command);
    };
    match QueryName::read(name.as_slice()) {
        Some(name) => parse_words(alloc, name, copies(alloc, words)?),
        None => Err(Refusal::Command),
    }
}
