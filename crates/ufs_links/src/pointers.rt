// The pointers of lists that run both ways through their nodes, and of their ends.
ghost use Rattle.std.specs.Prelude.{◌≡◌, ℕ, ◌+◌, ◌^◌, ◌<◌, ◌≤◌, Some, OnOk, is_ok, if◌then◌else◌, max, vec_len};
ghost use Rattle.ufs_links.specs.Pointers.{after_of, before_of, list_of, place_at, ends_at, IsPlaced, AfterSet, BeforeSet, PlaceSet, Joined, Parted};

use ufs_base::Memory;

/// Where a node stands: its list, and the nodes before and after it there.
#[derive(Clone, Copy)]
pub(crate) struct Place {
    pub(crate) list: u32,
    pub(crate) before: Option<u32>,
    pub(crate) after: Option<u32>,
}

/// The front and the back of a list that isn't empty.
#[derive(Clone, Copy)]
pub(crate) struct Ends {
    pub(crate) front: Option<u32>,
    pub(crate) back: Option<u32>,
}

/// A place for each node that is on a list, and the ends of each list. In its methods `None` stands at both ends of a
/// list: the front is what comes after it, and the back what comes before it.
#[derive(Drop)]
pub(crate) struct Pointers {
    pub(crate) places: Vec<Option<Place>>,
    pub(crate) ends: Vec<Ends>,
}

impl Pointers {
    /// Makes places for nodes below `nodes`, none of which is on a list.
    pub(crate) fn add_places(&mut self, nodes: usize) -> Result<(), Memory>
        ensures places { (n : ℕ) → place_at self.new n ≡ place_at self.old n }
        ensures ends { self.new.ends.items ≡ self.old.ends.items }
        ensures room { OnOk result (nodes ≤ vec_len self.new.places) }
        ensures kept { vec_len self.old.places ≤ vec_len self.new.places }
        ensures most { vec_len self.new.places ≤ max nodes (vec_len self.old.places) }
    {
        if nodes > self.places.len() {
            self.places.resize(nodes, None)?;
        }
        Ok(())
    }

    /// Adds the ends of lists that are empty.
    pub(crate) fn add_ends(&mut self, count: usize) -> Result<(), Memory>
        requires { vec_len self.old.ends + count < 2 ^ 64 }
        ensures places { self.new.places.items ≡ self.old.places.items }
        ensures ends { (l : ℕ) → ends_at self.new l ≡ ends_at self.old l }
        ensures count { vec_len self.new.ends ≡ (if is_ok result then vec_len self.old.ends + count else vec_len self.old.ends) }
    {
        let empty = Ends {
            front: None,
            back: None,
        };
        let ends = self.ends.len() + count;
        self.ends.resize(ends, empty)?;
        Ok(())
    }

    /// The list that the node is on.
    pub(crate) fn list_of(&self, node: u32) -> Option<u32>
        ensures { result ≡ list_of self.now node }
    {
        if node as usize >= self.places.len() {
            return None;
        }
        match self.places[node as usize] {
            Some(place) => Some(place.list),
            None => None,
        }
    }

    pub(crate) fn after(&self, list: u32, at: Option<u32>) -> Option<u32>
        requires list { list < vec_len self.now.ends }
        requires placed { IsPlaced self.now at }
        ensures { result ≡ after_of self.now list at }
    {
        match at {
            Some(node) => match self.places[node as usize] {
                Some(place) => place.after,
                None => None,
            },
            None => self.ends[list as usize].front,
        }
    }

    pub(crate) fn before(&self, list: u32, at: Option<u32>) -> Option<u32>
        requires list { list < vec_len self.now.ends }
        requires placed { IsPlaced self.now at }
        ensures { result ≡ before_of self.now list at }
    {
        match at {
            Some(node) => match self.places[node as usize] {
                Some(place) => place.before,
                None => None,
            },
            None => self.ends[list as usize].back,
        }
    }

    fn set_after(&mut self, list: u32, at: Option<u32>, to: Option<u32>)
        requires list { list < vec_len self.old.ends }
        requires placed { IsPlaced self.old at }
        ensures { AfterSet self.old self.new list at to }
    {
        match at {
            Some(node) => {
                let Some(place) = self.places[node as usize] else {
                    unreachable!()
                };
                self.places[node as usize] = Some(Place { after: to, ..place });
            }
            None => {
                let ends = self.ends[list as usize];
                self.ends[list as usize] = Ends { front: to, ..ends };
            }
        }
    }

    fn set_before(&mut self, list: u32, at: Option<u32>, to: Option<u32>)
        requires list { list < vec_len self.old.ends }
        requires placed { IsPlaced self.old at }
        ensures { BeforeSet self.old self.new list at to }
    {
        match at {
            Some(node) => {
                let Some(place) = self.places[node as usize] else {
                    unreachable!()
                };
                self.places[node as usize] = Some(Place {
                    before: to,
                    ..place
                });
            }
            None => {
                let ends = self.ends[list as usize];
                self.ends[list as usize] = Ends { back: to, ..ends };
            }
        }
    }

    fn set_place(&mut self, node: u32, place: Option<Place>)
        requires { node < vec_len self.old.places }
        ensures { PlaceSet self.old self.new node place }
    {
        self.places[node as usize] = place;
    }

    /// Puts the node between two that follow each other on the list.
    pub(crate) fn join(&mut self, list: u32, node: u32, before: Option<u32>, after: Option<u32>)
        requires list { list < vec_len self.old.ends }
        requires node { node < vec_len self.old.places }
        requires before { IsPlaced self.old before }
        requires after { IsPlaced self.old after }
        ensures { Joined self.old self.new list node before after }
    {
        self.set_place(
            node,
            Some(Place {
                list,
                before,
                after,
            }),
        );
        self.set_after(list, before, Some(node));
        self.set_before(list, after, Some(node));
    }

    /// Takes the node off its list.
    pub(crate) fn part(&mut self, node: u32, place: Place)
        requires list { place.list < vec_len self.old.ends }
        requires node { place_at self.old node ≡ Some place }
        requires before { IsPlaced self.old place.before }
        requires after { IsPlaced self.old place.after }
        ensures { Parted self.old self.new node place }
    {
        let Place {
            list,
            before,
            after,
        } = place;
        self.set_after(list, before, after);
        self.set_before(list, after, before);
        self.set_place(node, None);
    }
}
