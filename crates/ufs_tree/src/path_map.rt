// What stands at each whole path, with what has to be known of it without a search.
ghost use Rattle.std.specs.Prelude.{◌≡◌, ◌≤◌, ◌+◌, ◌-◌, ◌++◌, ◌∷◌, [], ℕ, List, All, IfOk, OnOk, OnErr, length, drop, if◌then◌else◌};
ghost use Rattle.std.specs.FinMap as map;
ghost use Rattle.ufs_model.specs.Directories.{is_entry_of, last_name};
ghost use Rattle.ufs_model.specs.Paths.{IsWhole, components};
ghost use Rattle.ufs_model.specs.PosixTree.{is_number, is_node_of};
ghost use Rattle.ufs_tree.specs.Below.{names_among};
ghost use Rattle.ufs_tree.specs.Counted.{dir_count};
ghost use Rattle.ufs_tree.specs.Moved.{with_other_front};

use crate::counts::{Counts, lower_file, raise_file};
use crate::node_map::NodeMap;
use crate::path;
use std::alloc::Global;
use std::marker::Model;
use ufs_base::Lack;
use ufs_model::{Bytes, NameList, Node};

/// What stands at each whole path.
#[derive(Drop)]
pub struct PathMap {
    nodes: NodeMap,
    // How many entries each directory has.
    entries: Counts<Vec<u8>>,
    // How many paths name each file.
    links: Counts<u32>,
}

impl Model for PathMap {
    ghost use Rattle.std.specs.Prelude.{List, ℕ};
    ghost use Rattle.std.specs.FinMap as map;
    ghost use Rattle.ufs_model.specs.declared.data.Node.{Node};
    ghost use Rattle.ufs_model.specs.contracts.data.Node as node;
    ghost use Rattle.ufs_model.specs.Order.{path_cmp};
    ghost use Rattle.ufs_tree.specs.Counted.{IsCountedByPath};
    ghost use Rattle.std.specs.Coded.{coded_ℕ, coded_list};

    ghost Value = { map.FinMap path_cmp Node };

    ghost coded = { map.code (coded_list coded_ℕ) node.the_row.coded };

    ghost view = { λ m. m.nodes };

    ghost invariant = { λ m. IsCountedByPath m.nodes m.entries m.links };
}

impl PathMap {
    ghost use Rattle.std.specs.Prelude.{◌≡◌, ◌≢◌, ℕ, List, All, OnOk, OnErr, IfOk, None, Some, true, false};
    ghost use Rattle.std.specs.FinMap.{is_sorted};
    ghost use Rattle.ufs_model.specs.Order.{path_cmp};
    ghost use Rattle.ufs_tree.specs.Moved.{put_over, taken_away};
    ghost use Rattle.std.specs.List.{list_any};
    ghost use Rattle.std.specs.FinMap as map;
    ghost use Rattle.ufs_model.specs.Paths.{IsWhole};
    ghost use Rattle.ufs_model.specs.PosixTree.{IsNamespace, stands, has_dir, is_node_of, root};
    ghost use Rattle.ufs_model.specs.Directories.{entry_count, entry_names, has_entries, is_below, renamed};

    pub fn new(alloc: Global) -> Self
        ensures { result ≡ map.empty }
    {
        PathMap {
            nodes: NodeMap::new(alloc),
            entries: Counts::new(alloc),
            links: Counts::new(alloc),
        }
    }

    pub fn get(&self, path: &[u8]) -> Option<Node>
        ensures { result ≡ map.get self.now path.now }
    {
        self.nodes.get(path)
    }

    /// Puts what stands at a path at which nothing stands.
    pub fn add(&mut self, alloc: Global, path: Vec<u8>, node: Node) -> Result<(), Lack>
        requires absent { map.get self.old path.items ≡ None }
        requires whole { IsWhole path.items }
        ensures ok { OnOk result (self.new ≡ map.insert self.old path.items node) }
        ensures err { OnErr result (self.new ≡ self.old) }
    {
        let file = number_of(node);
        raise_file(&mut self.links, file)?;
        match place(&mut self.nodes, &mut self.entries, alloc, path, node) {
            Ok(()) => Ok(()),
            Err(e) => {
                lower_file(&mut self.links, file);
                Err(e)
            }
        }
    }

    /// Takes no memory.
    pub fn remove(&mut self, path: &[u8])
        ensures { self.new ≡ map.remove self.old path.now }
    {
        if let Some(node) = self.get(path) {
            self.nodes.remove(path);
            lower_parent(&mut self.entries, path);
            lower_file(&mut self.links, number_of(node));
        }
    }

    /// How many entries a directory has.
    pub fn entry_count(&self, dir: &[u8]) -> u64
        ensures { result ≡ entry_count self.now dir.now }
    {
        self.entries.get(dir)
    }

    pub fn has_entries(&self, dir: &[u8]) -> bool
        ensures { result ≡ has_entries self.now dir.now }
    {
        self.entries.get(dir) > 0
    }

    /// Whether a path names the file.
    pub fn names_file(&self, file: u32) -> bool
        ensures { result ≡ list_any (is_node_of file) (map.values self.now) }
    {
        self.links.get(&file) > 0
    }

    /// The names of a directory's entries, in rising byte order.
    pub fn entry_names(&self, alloc: Global, dir: &[u8]) -> Result<NameList, Lack>
        requires whole { IsWhole dir.now }
        requires namespace { IsNamespace (stands self.now) (has_dir self.now) }
        ensures { IfOk result (λ names. names ≡ entry_names self.now dir.now) }
    {
        let below = self.nodes.below(alloc, path::front(dir))?;
        let names = names_of(alloc, below.as_slice(), dir)?;
        Ok(NameList::from_vec(names))
    }

    /// Gives what stands at `from`, with all below it, the name `to`, at which there may stand something else.
    pub fn rename(&mut self, alloc: Global, from: &[u8], to: &[u8]) -> Result<(), Lack>
        requires whole { IsWhole to.now }
        requires namespace { IsNamespace (stands self.old) (has_dir self.old) }
        requires stands { stands self.old from.now ≡ true }
        requires not_root { from.now ≢ root }
        requires to_not_root { to.now ≢ root }
        requires apart { from.now ≢ to.now }
        requires not_below { is_below from.now to.now ≡ false }
        requires empty { has_entries self.old to.now ≡ false }
        ensures ok { OnOk result (self.new ≡ renamed self.old from.now to.now) }
        ensures err { OnErr result (self.new ≡ self.old) }
    {
        let Some(node) = self.get(from) else {
            unreachable!();
        };
        let olds = self.nodes.below(alloc, from)?;
        let news = moved(alloc, olds.as_slice(), from, to)?;
        let top = to.to_vec(alloc)?;
        self.add_all(alloc, news.as_slice())?;
        if let Err(e) = self.put(alloc, top, node) {
            self.remove_all(news.as_slice());
            return Err(e);
        }
        self.remove_all(olds.as_slice());
        self.remove(from);
        Ok(())
    }

    // Puts a node in the place of another.
    fn replace(&mut self, path: Vec<u8>, old: Node, node: Node) -> Result<(), Lack>
        requires { map.get self.old path.items ≡ Some old }
        ensures ok { OnOk result (self.new ≡ map.insert self.old path.items node) }
        ensures err { OnErr result (self.new ≡ self.old) }
    {
        raise_file(&mut self.links, number_of(node))?;
        match self.nodes.insert(path, node) {
            Ok(()) => {}
            Err(_) => unreachable!(),
        }
        lower_file(&mut self.links, number_of(old));
        Ok(())
    }

    // Puts a node at a path at which there may stand another.
    fn put(&mut self, alloc: Global, path: Vec<u8>, node: Node) -> Result<(), Lack>
        requires { IsWhole path.items }
        ensures ok { OnOk result (self.new ≡ map.insert self.old path.items node) }
        ensures err { OnErr result (self.new ≡ self.old) }
    {
        match self.get(path.as_slice()) {
            None => self.add(alloc, path, node),
            Some(old) => self.replace(path, old, node),
        }
    }

    fn add_copy(&mut self, alloc: Global, path: &[u8], node: Node) -> Result<(), Lack>
        requires absent { map.get self.old path.now ≡ None }
        requires whole { IsWhole path.now }
        ensures ok { OnOk result (self.new ≡ map.insert self.old path.now node) }
        ensures err { OnErr result (self.new ≡ self.old) }
    {
        let copy = path.to_vec(alloc)?;
        self.add(alloc, copy, node)
    }

    // Puts nodes at paths at which nothing stands, all of them or none.
    fn add_all(&mut self, alloc: Global, nodes: &[(Bytes, Node)]) -> Result<(), Lack>
        requires absent { All (λ e. map.get self.old e.0 ≡ None) nodes.now }
        requires whole { All (λ e. IsWhole e.0) nodes.now }
        requires rising { is_sorted path_cmp nodes.now ≡ true }
        ensures ok { OnOk result ((path : List ℕ) → map.get self.new path ≡ put_over nodes.now (map.get self.old path) path) }
        ensures err { OnErr result (self.new ≡ self.old) }
    {
        for i in 0..nodes.len() {
            let entry = &nodes[i];
            if let Err(e) = self.add_copy(alloc, entry.0.as_slice(), entry.1) {
                self.remove_all(&nodes[..i]);
                return Err(e);
            }
        }
        Ok(())
    }

    // Takes no memory.
    fn remove_all(&mut self, nodes: &[(Bytes, Node)])
        ensures { (path : List ℕ) → map.get self.new path ≡ taken_away nodes.now (map.get self.old path) path }
    {
        for entry in nodes {
            self.remove(entry.0.as_slice());
        }
    }
}

// The number of the file, if it is one.
fn number_of(node: Node) -> Option<u32>
    ensures { (f : ℕ) → is_number f result ≡ is_node_of f node }
{
    match node {
        Node::Dir => None,
        Node::File(file) => Some(file),
    }
}

// One entry more in the directory above.
fn raise_parent(entries: &mut Counts<Vec<u8>>, alloc: Global, path: &[u8]) -> Result<(), Lack>
    requires { IsWhole path.now }
    ensures ok { OnOk result ((d : List ℕ) → dir_count entries.new d ≡ dir_count entries.old d + (if is_entry_of d path.now then 1 else 0)) }
    ensures err { OnErr result ((d : List ℕ) → dir_count entries.new d ≡ dir_count entries.old d) }
{
    if path::is_root(path) {
        return Ok(());
    }
    let dir = path::parent(path).to_vec(alloc)?;
    entries.raise(dir)?;
    Ok(())
}

// One entry less in the directory above. Takes no memory.
fn lower_parent(entries: &mut Counts<Vec<u8>>, path: &[u8])
    requires { IsWhole path.now }
    ensures { (d : List ℕ) → dir_count entries.new d ≡ dir_count entries.old d - (if is_entry_of d path.now then 1 else 0) }
{
    if path::is_root(path) {
        return;
    }
    entries.lower(path::parent(path));
}

// Puts a node at a path at which nothing stands, and counts it in the directory above.
fn place(
    nodes: &mut NodeMap,
    entries: &mut Counts<Vec<u8>>,
    alloc: Global,
    path: Vec<u8>,
    node: Node,
) -> Result<(), Lack>
    requires { IsWhole path.items }
    ensures ok { OnOk result (nodes.new ≡ map.insert nodes.old path.items node) }
    ensures counted { OnOk result ((d : List ℕ) → dir_count entries.new d ≡ dir_count entries.old d + (if is_entry_of d path.items then 1 else 0)) }
    ensures err { OnErr result (nodes.new ≡ nodes.old) }
    ensures err_counted { OnErr result ((d : List ℕ) → dir_count entries.new d ≡ dir_count entries.old d) }
{
    raise_parent(entries, alloc, path.as_slice())?;
    match nodes.insert(path, node) {
        Ok(()) => Ok(()),
        Err((memory, back)) => {
            lower_parent(entries, back.as_slice());
            Err(Lack::Memory(memory))
        }
    }
}

// The last names of those paths that are entries of the directory.
fn names_of(alloc: Global, nodes: &[(Bytes, Node)], dir: &[u8]) -> Result<Vec<Bytes>, Lack>
    requires { All (λ e. IsWhole e.0) nodes.now }
    ensures { IfOk result (λ names. names.items ≡ names_among nodes.now dir.now) }
{
    let mut names = Vec::new(alloc);
    for entry in nodes {
        add_name(alloc, &mut names, entry.0.as_slice(), dir)?;
    }
    Ok(names)
}

// Adds the last name of a path that is an entry of the directory.
fn add_name(alloc: Global, names: &mut Vec<Bytes>, path: &[u8], dir: &[u8]) -> Result<(), Lack>
    requires { IsWhole path.now }
    ensures { OnOk result (names.new.items ≡ names.old.items ++ (if is_entry_of dir.now path.now then last_name (components path.now) ∷ [] else [])) }
{
    if path::is_entry(dir, path) {
        let copy = path::name(path).to_vec(alloc)?;
        names.push(Bytes::from_vec(copy))?;
    }
    Ok(())
}

// The nodes, their paths with other bytes in the place of the first.
fn moved(
    alloc: Global,
    nodes: &[(Bytes, Node)],
    from: &[u8],
    to: &[u8],
) -> Result<Vec<(Bytes, Node)>, Lack>
    requires { All (λ e. length from.now ≤ length e.0) nodes.now }
    ensures { IfOk result (λ news. news.items ≡ with_other_front from.now to.now nodes.now) }
{
    let mut news = Vec::new(alloc);
    for entry in nodes {
        let path = moved_path(alloc, entry.0.as_slice(), from.len(), to)?;
        news.push((Bytes::from_vec(path), entry.1))?;
    }
    Ok(news)
}

fn moved_path(alloc: Global, path: &[u8], count: usize, to: &[u8]) -> Result<Vec<u8>, Lack>
    requires { count ≤ length path.now }
    ensures { IfOk result (λ new. new.items ≡ to.now ++ drop count path.now) }
{
    let mut new = to.to_vec(alloc)?;
    new.extend_from_slice(&path[count..])?;
    Ok(new)
}
