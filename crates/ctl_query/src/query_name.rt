//! The names of queries, and their options.

ghost use Rattle.std.specs.Prelude.{◌≡◌, is_some};
ghost use Rattle.std.specs.List.{list_any};
ghost use Rattle.std.specs.Str.{bytes_eq};
ghost use Rattle.ctl_query.specs.NameSet.{lent_names, is_among};
ghost use Rattle.ctl_query.specs.Query.{query_named, query_name_of, is_query, is_filter_name, options_of};

/// Whether a word is one of these.
fn is_any_of(words: &[&[u8]], word: &[u8]) -> bool
    ensures { result ≡ list_any (λ other. bytes_eq word.now other.now) words.now }
{
    for other in words {
        if word == *other {
            return true;
        }
    }
    false
}

/// A query of apt-cache(8), by its name.
#[derive(Clone, Copy, Debug, PartialEq, Eq)]
pub enum CacheQuery {
    PackageNames,
    Show,
    Depends,
    ReverseDepends,
    Unmet,
    Policy,
    ShowPackage,
}

impl CacheQuery {
    /// The query of a name, if there is one.
    pub(crate) fn read(word: &[u8]) -> Option<CacheQuery>
        ensures { result ≡ query_named word.now }
    {
        if word == b"pkgnames".as_slice() {
            Some(CacheQuery::PackageNames)
        } else if word == b"show".as_slice() {
            Some(CacheQuery::Show)
        } else if word == b"depends".as_slice() {
            Some(CacheQuery::Depends)
        } else if word == b"rdepends".as_slice() {
            Some(CacheQuery::ReverseDepends)
        } else if word == b"unmet".as_slice() {
            Some(CacheQuery::Unmet)
        } else if word == b"policy".as_slice() {
            Some(CacheQuery::Policy)
        } else if word == b"showpkg".as_slice() {
            Some(CacheQuery::ShowPackage)
        } else {
            None
        }
    }

    /// The options of the query.
    fn options(self) -> &'static [&'static [u8]]
        ensures { lent_names result.now ≡ options_of self }
    {
        match self {
            CacheQuery::PackageNames => &[b"--all-names"],
            CacheQuery::Show => &[b"-a", b"--all-versions", b"--no-all-versions"],
            CacheQuery::Depends => &[b"-i", b"--important", b"--installed"],
            CacheQuery::ReverseDepends => &[b"--installed"],
            CacheQuery::Unmet => &[b"-i", b"--important"],
            CacheQuery::Policy | CacheQuery::ShowPackage => &[],
        }
    }

    /// Whether an option is one of the query's.
    pub(crate) fn has_option(self, option: &[u8]) -> bool
        ensures { result ≡ is_among (options_of self) option.now }
    {
        is_any_of(self.options(), option)
    }
}

/// A query, by its name: that of grep-dctrl(1), whose words are its own, or one of apt-cache(8).
#[derive(Clone, Copy, Debug, PartialEq, Eq)]
pub enum QueryName {
    Filter,
    Cache(CacheQuery),
}

/// Whether it is the query of grep-dctrl(1), whose words are its own.
#[tactic(auto, unfolding(crate::specs::Query::is_filter_name))]
fn is_filter_name(word: &[u8]) -> bool
    ensures { result ≡ is_filter_name word.now }
{
    word == b"grep-dctrl".as_slice()
}

impl QueryName {
    /// The query of a name, if there is one.
    #[tactic(auto, unfolding(crate::specs::Query::is_query))]
    pub fn read(word: &[u8]) -> Option<QueryName>
        ensures name { result ≡ query_name_of word.now }
        ensures some { is_some result ≡ is_query word.now }
    {
        if is_filter_name(word) {
            return Some(QueryName::Filter);
        }
        match CacheQuery::read(word) {
            Some(query) => Some(QueryName::Cache(query)),
            None => None,
        }
    }
}
