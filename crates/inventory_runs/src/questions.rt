//! The queries that words ask.
use inventory_answers::Query;
use inventory_work::Named;
use kinds::{FilespaceName, Name, NodeName, Path, Refusal};
use std::alloc::{AllocError, Global};

/// Why words ask nothing.
#[derive(Clone, Copy)]
pub enum Fault {
    /// They are no query.
    NoCommand,
    /// A name is none, or memory is wanted.
    Refused(Refusal),
}

impl From<Refusal> for Fault {
    fn from(refusal: Refusal) -> Fault {
        Fault::Refused(refusal)
    }
}

impl From<AllocError> for Fault {
    fn from(_error: AllocError) -> Fault {
        Fault::Refused(Refusal::Memory)
    }
}

fn name(alloc: Global, word: &str) -> Result<Name, Fault> {
    let name = Name::read(alloc, word.as_bytes(), 30)?;
    Ok(name)
}

fn node(alloc: Global, word: &str) -> Result<NodeName, Fault> {
    let name = NodeName::read(alloc, word.as_bytes(), 64)?;
    Ok(name)
}

fn filespace(alloc: Global, word: &str) -> Result<FilespaceName, Fault> {
    let name = FilespaceName::read(alloc, word.as_bytes())?;
    Ok(name)
}

/// A name, or none for `-`.
fn name_or_none(alloc: Global, word: &str) -> Result<Option<Name>, Fault> {
    if word == "-" {
        Ok(None)
    } else {
        Ok(Some(name(alloc, word)?))
    }
}

pub fn number(word: &str) -> Result<u32, Fault> {
    word.parse::<u32>().ok().ok_or(Fault::NoCommand)
}

fn byte(word: &str) -> Result<u8, Fault> {
    word.parse::<u8>().ok().ok_or(Fault::NoCommand)
}

/// A query of one word.
fn of_word(word: &str) -> Result<Query, Fault> {
    match word {
        "today" => Ok(Query::Today),
        "domains" => Ok(Query::Domains),
        "nodes" => Ok(Query::Nodes),
        "devices" => Ok(Query::Devices),
        "history" => Ok(Query::History),
        "unretained" => Ok(Query::Unretained),
        "emptied" => Ok(Query::Emptied),
        "log" => Ok(Query::LogBytes),
        _ => Err(Fault::NoCommand),
    }
}

/// What a name leads to, of a kind that the word tells.
fn lookup(alloc: Global, kind: &str, word: &str) -> Result<Query, Fault> {
    let named = match kind {
        "node" => Named::Node(node(alloc, word)?),
        "class" => Named::DevClass(name(alloc, word)?),
        "pool" => Named::Pool(name(alloc, word)?),
        "volume" => Named::Volume(name(alloc, word)?),
        _ => return Err(Fault::NoCommand),
    };
    Ok(Query::Lookup { named })
}

/// The filespaces of a node, or of all for `-`.
fn filespaces(alloc: Global, word: &str) -> Result<Query, Fault> {
    if word == "-" {
        Ok(Query::Filespaces { node: None })
    } else {
        let node = node(alloc, word)?;
        Ok(Query::Filespaces { node: Some(node) })
    }
}

/// A query of a word and a name or number.
fn of_name(alloc: Global, what: &str, word: &str) -> Result<Query, Fault> {
    match what {
        "sets" => Ok(Query::Sets {
            domain: name(alloc, word)?,
        }),
        "filespaces" => filespaces(alloc, word),
        "pools" => Ok(Query::Pools {
            pool: name_or_none(alloc, word)?,
        }),
        "content" => Ok(Query::Content {
            volume: name(alloc, word)?,
        }),
        "rules" => Ok(Query::Rules {
            node: number(word)?,
        }),
        "held" => Ok(Query::Held {
            filespace: number(word)?,
        }),
        "onpool" => Ok(Query::OnPool {
            pool: number(word)?,
        }),
        "onvolume" => Ok(Query::OnVolume {
            file: number(word)?,
        }),
        _ => Err(Fault::NoCommand),
    }
}

fn classes(alloc: Global, domain: &str, set: &str) -> Result<Query, Fault> {
    let domain = name(alloc, domain)?;
    let set = name(alloc, set)?;
    Ok(Query::Classes { domain, set })
}

fn groups(alloc: Global, domain: &str, set: &str) -> Result<Query, Fault> {
    let domain = name(alloc, domain)?;
    let set = name(alloc, set)?;
    Ok(Query::Groups { domain, set })
}

fn versions(alloc: Global, of: &str, space: &str) -> Result<Query, Fault> {
    let node = node(alloc, of)?;
    let filespace = filespace(alloc, space)?;
    Ok(Query::Versions { node, filespace })
}

/// The number of a node's filespace.
fn lookup_filespace(alloc: Global, of: &str, space: &str) -> Result<Query, Fault> {
    let node = node(alloc, of)?;
    let filespace = filespace(alloc, space)?;
    Ok(Query::Lookup {
        named: Named::Filespace { node, filespace },
    })
}

/// The versions of one path.
fn path(alloc: Global, of: &str, space: &str, word: &str) -> Result<Query, Fault> {
    let node = node(alloc, of)?;
    let filespace = filespace(alloc, space)?;
    let path = Path::read(alloc, word.as_bytes())?;
    Ok(Query::Path {
        node,
        filespace,
        path,
    })
}

fn validated(alloc: Global, domain: &str, set: &str) -> Result<Query, Fault> {
    let domain = name(alloc, domain)?;
    let set = name(alloc, set)?;
    Ok(Query::Validated { domain, set })
}

fn volumes(alloc: Global, volume: &str, pool: &str) -> Result<Query, Fault> {
    let volume = name_or_none(alloc, volume)?;
    let pool = name_or_none(alloc, pool)?;
    Ok(Query::Volumes { volume, pool })
}

fn missing(primary: &str, copy: &str) -> Result<Query, Fault> {
    Ok(Query::Missing {
        primary: number(primary)?,
        copy: number(copy)?,
    })
}

fn eligible(pool: &str, threshold: &str) -> Result<Query, Fault> {
    Ok(Query::Eligible {
        pool: number(pool)?,
        threshold: byte(threshold)?,
    })
}

/// A query of a word and two names or numbers.
fn of_names(alloc: Global, what: &str, one: &str, two: &str) -> Result<Query, Fault> {
    match what {
        "classes" => classes(alloc, one, two),
        "groups" => groups(alloc, one, two),
        "versions" => versions(alloc, one, two),
        "validated" => validated(alloc, one, two),
        "volumes" => volumes(alloc, one, two),
        "lookup" => lookup(alloc, one, two),
        "missing" => missing(one, two),
        "eligible" => eligible(one, two),
        _ => Err(Fault::NoCommand),
    }
}

/// The query that the words ask.
pub fn query_of(alloc: Global, words: &[&str]) -> Result<Query, Fault> {
    match words {
        [what] => of_word(what),
        [what, word] => of_name(alloc, what, word),
        [what, one, two] => of_names(alloc, what, one, two),
        ["lookup", "filespace", one, two] => lookup_filespace(alloc, one, two),
        ["path", one, two, word] => path(alloc, one, two, word),
        _ => Err(Fault::NoCommand),
    }
}
