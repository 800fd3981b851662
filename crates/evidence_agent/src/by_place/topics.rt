//! What an entry speaks of, where only the last such entry counts.

ghost use Rattle.std.specs.Prelude.{◌≡◌, option_map};
ghost use Rattle.evidence_agent.specs.Places.Topics.{about_data, about_object, about_pod, asked_topic, listed_topic, matter_index, read_topic, rows_topic, taken_topic, topic_by};

use call_types::reply::Reply;
use call_types::request::Request;
use kube_types::key::Key;
use kube_types::objects::DataId;
use kube_types::parts::Kind;
use kube_types::text::Text;
use kube_types::uid::Uid;

/// What it is about.
#[derive(Clone, Copy, Debug, PartialEq, Eq)]
pub enum Matter {
    /// A node was taken.
    Taken,
    /// All pods were listed.
    Listed,
    /// An object was read.
    Read,
    /// A claim that was read names a volume.
    Naming,
    /// A pod was to be finished.
    Finished,
    /// A pod was to be mounted.
    Mounted,
    /// The mounts of a node were told.
    Rows,
    /// A volume over the data was read.
    Over,
}

/// A topic: the matter, and the object or the pod.
pub struct Topic {
    pub matter: Matter,
    pub key: Key,
    pub uid: Uid,
}

impl Drop for Topic {
    fn drop(self) {
        let Topic {
            matter: _,
            key,
            uid: _,
        } = self;
        drop(key);
    }
}

/// The parts of a topic, by which it is looked up without memory.
#[derive(Drop)]
pub struct About<'a> {
    pub matter: Matter,
    pub kind: Kind,
    pub namespace: &'a str,
    pub name: &'a str,
    pub uid: Uid,
}

/// The place of a matter in their order, from 0.
pub fn matter_index(matter: Matter) -> u8
    ensures { result ≡ matter_index matter }
{
    match matter {
        Matter::Taken => 0,
        Matter::Listed => 1,
        Matter::Read => 2,
        Matter::Naming => 3,
        Matter::Finished => 4,
        Matter::Mounted => 5,
        Matter::Rows => 6,
        Matter::Over => 7,
    }
}

impl<'a> About<'a> {
    /// The topic of an object.
    pub fn object(matter: Matter, kind: Kind, namespace: &'a str, name: &'a str) -> About<'a>
        ensures { topic_by result ≡ about_object matter kind namespace.now name.now }
    {
        About {
            matter,
            kind,
            namespace,
            name,
            uid: Uid(0),
        }
    }

    /// The topic of the data of a volume.
    pub fn data(matter: Matter, id: &'a DataId) -> About<'a>
        ensures { topic_by result ≡ about_data matter id.now }
    {
        About::object(
            matter,
            Kind::PersistentVolume,
            id.driver.as_str(),
            id.id.as_str(),
        )
    }

    /// The topic of a pod.
    pub fn pod(matter: Matter, uid: Uid) -> About<'a>
        ensures { topic_by result ≡ about_pod matter uid }
    {
        About {
            matter,
            kind: Kind::Pod,
            namespace: "",
            name: "",
            uid,
        }
    }
}

/// What the request speaks of, told or not.
pub fn asked_topic<'a>(request: &'a Request) -> Option<About<'a>>
    ensures { option_map topic_by result ≡ asked_topic request.now }
{
    match request {
        Request::FinishPod {
            key: _,
            uid,
            node: _,
            epoch: _,
        } => Some(About::pod(Matter::Finished, *uid)),
        Request::Mount {
            node: _,
            epoch: _,
            pod,
            claims: _,
        } => Some(About::pod(Matter::Mounted, *pod)),
        _ => None,
    }
}

fn taken_topic<'a>(node: &'a Text, reply: &Reply) -> Option<About<'a>>
    ensures { option_map topic_by result ≡ taken_topic node.now reply.now }
{
    match reply {
        Reply::Epoch(_) => Some(About::object(Matter::Taken, Kind::Node, "", node.as_str())),
        _ => None,
    }
}

fn rows_topic<'a>(node: &'a Text, reply: &Reply) -> Option<About<'a>>
    ensures { option_map topic_by result ≡ rows_topic node.now reply.now }
{
    match reply {
        Reply::Mounted(_) => Some(About::object(Matter::Rows, Kind::Node, "", node.as_str())),
        _ => None,
    }
}

fn listed_topic<'a>(reply: &Reply) -> Option<About<'a>>
    ensures { option_map topic_by result ≡ listed_topic reply.now }
{
    match reply {
        Reply::Listed {
            items: _,
            version: _,
        } => Some(About::object(Matter::Listed, Kind::Pod, "", "")),
        _ => None,
    }
}

/// What the request speaks of, with its answer that was told.
pub fn read_topic<'a>(request: &'a Request, reply: &Reply) -> Option<About<'a>>
    ensures { option_map topic_by result ≡ read_topic request.now reply.now }
{
    match request {
        Request::TakeNode { node } => taken_topic(node, reply),
        Request::List {
            kind: Kind::Pod,
            namespace: None,
        } => listed_topic(reply),
        Request::Get { key } => Some(About::object(
            Matter::Read,
            key.kind,
            key.namespace.as_str(),
            key.name.as_str(),
        )),
        Request::Mounts { node, epoch: _ } => rows_topic(node, reply),
        Request::Mount {
            node,
            epoch: _,
            pod: _,
            claims: _,
        } => rows_topic(node, reply),
        Request::Unmount {
            node,
            epoch: _,
            pod: _,
        } => rows_topic(node, reply),
        _ => None,
    }
}
