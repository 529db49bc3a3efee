// A path that was read.
use std::marker::Model;

/// The components of a path whose text isn't refused. No call on it takes memory.
#[derive(Drop)]
pub struct PathText {
    // The whole path.
    bytes: Vec<u8>,
    // The place in `bytes` where each component ends.
    ends: Vec<usize>,
}

impl Model for PathText {
    ghost use Rattle.std.specs.Prelude.{List, ℕ};
    ghost use Rattle.ufs_model.specs.Paths.{components};
    ghost use Rattle.ufs_path.specs.Texts.{IsKept};

    ghost Value = { List (List ℕ) };

    ghost view = { λ p. components p.bytes.items };

    ghost invariant = { λ p. IsKept p.bytes.items p.ends.items };
}

impl PathText {
    ghost use Rattle.std.specs.Prelude.{◌≡◌, ◌-◌, ◌<◌, ◌≤◌, ◌↔◌, ◌++◌, ◌∷◌, [], IsTrue, All, Some, length, take, slice_get};
    ghost use Rattle.ufs_model.specs.Paths.{components, whole_path, parent_of, IsWhole};
    ghost use Rattle.ufs_path.specs.Names.{IsName};
    ghost use Rattle.ufs_path.specs.Texts.{IsKept, joined};

    /// From a whole path and the ends of its components.
    pub(crate) fn from_parts(bytes: Vec<u8>, ends: Vec<usize>) -> Self
        requires { IsKept bytes.items ends.items }
        ensures { result ≡ components bytes.items }
    {
        PathText { bytes, ends }
    }

    /// How many components there are: none for the root.
    pub fn len(&self) -> usize
        ensures value { result ≡ length self.now }
        ensures names { All IsName self.now }
    {
        self.ends.len()
    }

    /// Whether it is the root, which has no component.
    pub fn is_root(&self) -> bool
        ensures { IsTrue result ↔ (self.now ≡ []) }
    {
        self.len() == 0
    }

    /// The component with this place, from 0 on.
    pub fn component(&self, i: usize) -> &[u8]
        requires { i < length self.now }
        ensures value { slice_get self.now i ≡ Some result.now }
        ensures name { IsName result.now }
    {
        let end = self.ends[i];
        let start = self.end_of(i) + 1;
        &self.bytes.as_slice()[start..end]
    }

    /// The last component. `is_root` tests whether there is one.
    pub fn last(&self) -> &[u8]
        requires { 0 < length self.now }
        ensures value { self.now ≡ take (length self.now - 1) self.now ++ result.now ∷ [] }
        ensures name { IsName result.now }
    {
        self.component(self.len() - 1)
    }

    /// The whole path: a slash before each component, and one slash for the root.
    pub fn whole(&self) -> &[u8]
        ensures value { result.now ≡ whole_path self.now }
        ensures stands { IsWhole result.now }
    {
        self.bytes.as_slice()
    }

    /// The whole path of the first components.
    pub fn prefix(&self, count: usize) -> &[u8]
        requires { count ≤ length self.now }
        ensures { result.now ≡ whole_path (take count self.now) }
    {
        let end = self.end_of(count).max(1);
        &self.bytes.as_slice()[..end]
    }

    /// The whole path of the directory above; above the root there is the root.
    pub fn parent(&self) -> &[u8]
        ensures value { result.now ≡ whole_path (take (length self.now - 1) self.now) }
        ensures parent { result.now ≡ parent_of (whole_path self.now) }
    {
        self.prefix(self.len().saturating_sub(1))
    }

    // The place where the first components end, with a slash before each.
    fn end_of(&self, count: usize) -> usize
        requires { count ≤ length self.now }
        ensures { result ≡ length (joined (take count self.now)) }
    {
        if count == 0 { 0 } else { self.ends[count - 1] }
    }
}
