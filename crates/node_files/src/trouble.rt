// What says why a store is unavailable.
use files::{Cause, Unopened};
use names::NodeName;
use refusal::Refusal;
use std::alloc::Global;
use std::fmt;

/// What a refusal is about. Its text is a line of its own.
#[derive(Debug, Drop)]
pub enum About {
    /// A file or a folder that is unavailable.
    File(Unopened),
    /// The node's files have what it did not leave there.
    Damaged(NodeName),
    /// A file of the node could not be written or synced.
    Failed(NodeName),
    /// The shard's files are not of the same moment as the coordinator's.
    Apart(u8),
}

#[derive(Clone, Copy)]
struct FilesOf(NodeName);

impl fmt::Display for FilesOf {
    fn fmt<W: fmt::Write>(&self, f: &mut fmt::Formatter<W>) -> fmt::Result {
        match self.0 {
            NodeName::Coordinator => write!(f, "the files of the coordinator"),
            NodeName::Shard(shard) => write!(f, "the files of shard {shard}"),
        }
    }
}

impl fmt::Display for About {
    fn fmt<W: fmt::Write>(&self, f: &mut fmt::Formatter<W>) -> fmt::Result {
        match self {
            About::File(unopened) => write!(f, "{unopened}"),
            About::Damaged(node) => write!(f, "{} are damaged", FilesOf(*node)),
            About::Failed(node) => write!(f, "{} can't be written", FilesOf(*node)),
            About::Apart(shard) => write!(
                f,
                "the files of shard {shard} and of the coordinator are not of one moment"
            ),
        }
    }
}

/// Why a command ends, as it is printed on standard error: the refusal on a line, and what it is about on a second one, if that is known.
#[derive(Debug, Drop)]
pub struct Trouble {
    pub refusal: Refusal,
    pub about: Option<About>,
}

impl Trouble {
    /// The node answers only this refusal.
    pub fn of_node(refusal: Refusal, node: NodeName) -> Trouble {
        let about = match refusal {
            Refusal::Damaged => Some(About::Damaged(node)),
            Refusal::Down => Some(About::Failed(node)),
            _ => None,
        };
        Trouble { refusal, about }
    }

    /// The folder does not have what it is to have.
    pub fn of_folder(alloc: Global, folder: &str, refusal: Refusal, cause: Cause) -> Trouble {
        match String::from_str(alloc, folder) {
            Ok(path) => Trouble::from(Unopened {
                refusal,
                path,
                cause,
            }),
            Err(_) => Trouble::from(refusal),
        }
    }
}

impl From<Refusal> for Trouble {
    fn from(refusal: Refusal) -> Trouble {
        Trouble {
            refusal,
            about: None,
        }
    }
}

impl From<Unopened> for Trouble {
    fn from(unopened: Unopened) -> Trouble {
        let refusal = unopened.refusal;
        let about = match refusal {
            Refusal::NoMemory => None,
            _ => Some(About::File(unopened)),
        };
        Trouble { refusal, about }
    }
}

impl fmt::Display for Trouble {
    fn fmt<W: fmt::Write>(&self, f: &mut fmt::Formatter<W>) -> fmt::Result {
        write!(f, "zanstore: {}", self.refusal)?;
        match &self.about {
            Some(about) => write!(f, "\nzanstore: {about}"),
            None => Ok(()),
        }
    }
}
