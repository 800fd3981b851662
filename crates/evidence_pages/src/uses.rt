//! Which claims the pods use that the lists of their namespace tell.

use crate::runs::Run;
use kube_types::bindings::is_scheduled;
use kube_types::copies::{OutOfMemory, Plain};
use kube_types::objects::{Object, Pod};
use kube_types::rows::{Ranked, place_of};
use kube_types::text::Text;
use std::alloc::Global;
use std::cmp::Ordering;

/// The name of a claim, and the lists that tell a pod which uses it.
struct Use {
    name: Text,
    run: Run,
}

impl Drop for Use {
    fn drop(self) {
        let Use { name, run: _ } = self;
        drop(name);
    }
}

impl<'a> Ranked<&'a str> for Use {
    ghost use Rattle.plain_data.specs.Pairs.{text_cmp};

    ghost rank = { λ u k. text_cmp u.name k.now };

    fn rank(&self, key: &&'a str) -> Ordering {
        let key: &str = key;
        self.name.as_str().cmp(key)
    }
}

/// The uses in the order of their names, and the last list.
pub(crate) struct Uses {
    alloc: Global,
    rows: Vec<Use>,
    last: Option<usize>,
}

impl Drop for Uses {
    fn drop(self) {
        let Uses {
            alloc: _,
            rows,
            last: _,
        } = self;
        drop(rows);
    }
}

impl Uses {
    /// No list was told. It takes no memory.
    pub(crate) fn new(alloc: Global) -> Uses {
        Uses {
            alloc,
            rows: Vec::new(alloc),
            last: None,
        }
    }

    /// The list at the place tells a pod that uses the claim of this name.
    fn use_at(&mut self, name: &Text, place: usize) -> Result<(), OutOfMemory> {
        match place_of(&self.rows, &name.as_str()) {
            Ok(at) => {
                let run = self.rows[at].run;
                self.rows[at].run = run.go_on(place, self.last);
                Ok(())
            }
            Err(at) => {
                let name = name.copy(self.alloc)?;
                let run = Run::begin(place, self.last);
                self.rows.insert(at, Use { name, run })?;
                Ok(())
            }
        }
    }

    fn learn_pod(&mut self, pod: &Pod, place: usize) -> Result<(), OutOfMemory> {
        if !is_scheduled(pod) {
            return Ok(());
        }
        for name in pod.claims.as_slice() {
            self.use_at(name, place)?;
        }
        Ok(())
    }

    fn learn_object(&mut self, object: &Object, place: usize) -> Result<(), OutOfMemory> {
        match object {
            Object::Pod(pod) => self.learn_pod(pod, place),
            _ => Ok(()),
        }
    }

    /// The list at the place tells these objects.
    pub(crate) fn learn(&mut self, objects: &[Object], place: usize) -> Result<(), OutOfMemory> {
        for object in objects {
            self.learn_object(object, place)?;
        }
        self.last = Some(place);
        Ok(())
    }

    /// The last list that told no pod which uses the claim of this name.
    pub(crate) fn unused(&self, name: &str) -> Option<usize> {
        match place_of(&self.rows, &name) {
            Ok(at) => self.rows[at].run.lacked(self.last),
            Err(_) => self.last,
        }
    }
}
