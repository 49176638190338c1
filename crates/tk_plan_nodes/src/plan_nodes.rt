//! Nodes of a plan in code.
ghost use Rattle.std.specs.Prelude.{◌≡◌, ◌++◌, ◌∷◌, [], true, Some, IfErr, IfOk, OnOk};
ghost use Rattle.tk_ids.specs.declared.descriptors.DType.TheVariants.{Container, Test, Both};
ghost use Rattle.tk_plan_nodes.specs.Bodies.{bodies_of};
ghost use Rattle.tk_plan_nodes.specs.BodyCalls.{AreCalled, IsBodiesFault, calls_of};
ghost use Rattle.tk_plan_nodes.specs.NodeViews.{node_view, plain, pairs_of};

use crate::bodies::Bodies;
use crate::bodies_faults::BodiesFault;
use crate::body_calls::check_calls;
use crate::modes::ExecutionMode;
use std::alloc::{AllocError, Global};
use tk_events::Outcome;
use tk_ids::{DType, LockMode};

/// A lock that a node asks for.
#[derive(Clone, Copy, Debug)]
pub struct PlanLock<'t> {
    /// The resource: locks of one key are of one resource; `global` is that of isolated nodes.
    pub key: &'t str,
    /// Whether others may read the resource meanwhile.
    pub mode: LockMode,
}

/// A node of a plan in code, with all nodes below it. It borrows its texts but the message of its
/// outcome; `build_plan` copies them all.
///
/// Each field but `body` is a member of a node in JSON (docs/FORMATS.md, Plan JSON), and is checked
/// as that member is: only a static node may have a mode, be isolated, have locks or children.
#[derive(Debug, Drop)]
pub struct PlanNode<'t> {
    /// Whether the node is a test, a container, or both: the member `type`.
    pub dtype: DType,
    /// The tag of the last segment of the node's id.
    pub tag: &'t str,
    /// The value of that segment.
    pub value: &'t str,
    /// The name under which the node is shown.
    pub name: &'t str,
    /// Whether the node may run beside its siblings.
    pub mode: ExecutionMode,
    /// Whether nothing else runs beside the node: the member `isolated`.
    pub is_isolated: bool,
    /// What the node locks while it runs.
    pub locks: Vec<PlanLock<'t>>,
    /// Why the node is skipped, if it is.
    pub skip: Option<&'t str>,
    /// How the node finishes where its script is played: the member `result`.
    pub outcome: Outcome,
    /// The entries that the node publishes, each a list of keys and values.
    pub entries: Vec<Vec<(&'t str, &'t str)>>,
    /// The paths of the files that it publishes.
    pub files: Vec<&'t str>,
    /// The static nodes below it.
    pub children: Vec<PlanNode<'t>>,
    /// The nodes below it that are registered as it runs.
    pub dynamic: Vec<PlanNode<'t>>,
    /// The number of the body that runs for it, if it has one; no member of the node in JSON.
    pub body: Option<u32>,
}

impl<'t> PlanNode<'t> {
    /// Makes a node of this type that runs in its parent's thread, asks for no lock, and succeeds.
    ///
    /// `segment` has the tag and the value of the last segment of its id.
    pub fn new(
        alloc: Global,
        dtype: DType,
        segment: (&'t str, &'t str),
        name: &'t str,
    ) -> PlanNode<'t>
        ensures { node_view result ≡ plain dtype segment.entry name.entry }
    {
        PlanNode {
            dtype,
            tag: segment.0,
            value: segment.1,
            name,
            mode: ExecutionMode::SameThread,
            is_isolated: false,
            locks: Vec::new(alloc),
            skip: None,
            outcome: Outcome::Successful,
            entries: Vec::new(alloc),
            files: Vec::new(alloc),
            children: Vec::new(alloc),
            dynamic: Vec::new(alloc),
            body: None,
        }
    }

    /// Makes a container, as [`PlanNode::new`] does.
    pub fn container(alloc: Global, segment: (&'t str, &'t str), name: &'t str) -> PlanNode<'t>
        ensures { node_view result ≡ plain Container segment.entry name.entry }
    {
        PlanNode::new(alloc, DType::Container, segment, name)
    }

    /// Makes a test, as [`PlanNode::new`] does.
    pub fn test(alloc: Global, segment: (&'t str, &'t str), name: &'t str) -> PlanNode<'t>
        ensures { node_view result ≡ plain Test segment.entry name.entry }
    {
        PlanNode::new(alloc, DType::Test, segment, name)
    }

    /// Makes what is both a container and a test, as [`PlanNode::new`] does.
    /// JUnit: `TestDescriptor.Type.CONTAINER_AND_TEST`.
    pub fn container_and_test(
        alloc: Global,
        segment: (&'t str, &'t str),
        name: &'t str,
    ) -> PlanNode<'t>
        ensures { node_view result ≡ plain Both segment.entry name.entry }
    {
        PlanNode::new(alloc, DType::Both, segment, name)
    }

    /// Sets whether the node may run beside its siblings.
    pub fn mode(mut self, mode: ExecutionMode) -> PlanNode<'t>
        ensures { node_view result ≡ record (node_view self.entry) { mode = mode } }
    {
        self.mode = mode;
        self
    }

    /// Lets nothing else run beside the node. JUnit: `@Isolated`.
    pub fn isolated(mut self) -> PlanNode<'t>
        ensures { node_view result ≡ record (node_view self.entry) { is_isolated = true } }
    {
        self.is_isolated = true;
        self
    }

    /// Adds a lock. JUnit: `@ResourceLock`.
    ///
    /// # Errors
    /// `AllocError` where a request for memory is refused.
    pub fn lock(mut self, key: &'t str, mode: LockMode) -> Result<PlanNode<'t>, AllocError>
        ensures { IfOk result (λ n. node_view n ≡ record (node_view self.entry) {
          locks = (node_view self.entry).locks ++ record { key = key.entry; mode = mode } ∷ [];
        }) }
    {
        self.locks.push(PlanLock { key, mode })?;
        Ok(self)
    }

    /// Skips the node and all below it, for this reason.
    pub fn skip(mut self, reason: &'t str) -> PlanNode<'t>
        ensures { node_view result ≡ record (node_view self.entry) { skip = Some reason.now } }
    {
        self.skip = Some(reason);
        self
    }

    /// Sets how the node finishes where its script is played.
    pub fn outcome(mut self, outcome: Outcome) -> PlanNode<'t>
        ensures { node_view result ≡ record (node_view self.entry) { outcome = outcome } }
    {
        self.outcome = outcome;
        self
    }

    /// Sets the number of the body that runs for the node, if it is a static test.
    ///
    /// The plan doesn't have it: [`PlanNode::bodies`] collects the numbers of the tree.
    pub fn body(mut self, number: u32) -> PlanNode<'t>
        ensures { node_view result ≡ record (node_view self.entry) { body = Some number } }
    {
        self.body = Some(number);
        self
    }

    /// Adds an entry that the node publishes, a list of keys and values.
    ///
    /// # Errors
    /// `AllocError` where a request for memory is refused.
    pub fn entry(mut self, pairs: Vec<(&'t str, &'t str)>) -> Result<PlanNode<'t>, AllocError>
        ensures { IfOk result (λ n. node_view n ≡ record (node_view self.entry) {
          entries = (node_view self.entry).entries ++ pairs_of pairs.entry.items ∷ [];
        }) }
    {
        self.entries.push(pairs)?;
        Ok(self)
    }

    /// Adds a file that the node publishes.
    ///
    /// # Errors
    /// `AllocError` where a request for memory is refused.
    pub fn file(mut self, path: &'t str) -> Result<PlanNode<'t>, AllocError>
        ensures { IfOk result (λ n. node_view n ≡ record (node_view self.entry) {
          files = (node_view self.entry).files ++ path.now ∷ [];
        }) }
    {
        self.files.push(path)?;
        Ok(self)
    }

    /// Adds a static node below the node, after those that are there.
    ///
    /// # Errors
    /// `AllocError` where a request for memory is refused.
    pub fn child(mut self, node: PlanNode<'t>) -> Result<PlanNode<'t>, AllocError>
        ensures { IfOk result (λ n. node_view n ≡ record (node_view self.entry) {
          children = (node_view self.entry).children ++ node.entry ∷ [];
        }) }
    {
        self.children.push(node)?;
        Ok(self)
    }

    /// Adds static nodes below the node, in their order, after those that are there.
    ///
    /// # Errors
    /// `AllocError` where a request for memory is refused.
    pub fn children(mut self, mut nodes: Vec<PlanNode<'t>>) -> Result<PlanNode<'t>, AllocError>
        ensures { IfOk result (λ n. node_view n ≡ record (node_view self.entry) {
          children = (node_view self.entry).children ++ nodes.entry.items;
        }) }
    {
        self.children.append(&mut nodes)?;
        Ok(self)
    }

    /// Adds a node below the node that is registered as the node runs.
    ///
    /// # Errors
    /// `AllocError` where a request for memory is refused.
    pub fn dynamic(mut self, node: PlanNode<'t>) -> Result<PlanNode<'t>, AllocError>
        ensures { IfOk result (λ n. node_view n ≡ record (node_view self.entry) {
          dynamic = (node_view self.entry).dynamic ++ node.entry ∷ [];
        }) }
    {
        self.dynamic.push(node)?;
        Ok(self)
    }

    /// Collects the numbers of the bodies of the tree with this root, by the keys of its plan.
    ///
    /// The keys of static nodes are in preorder: a node's stands before those of its children. So the
    /// numbers are those of the plan that `build_plan` makes of the same root.
    ///
    /// Each number is then that of a test that a unit runs, or would run if it weren't skipped; and
    /// if a node has a number, each test that a unit runs has one.
    ///
    /// # Errors
    /// `NeverCalled` with the first node that has a number and whose body is never called: it is no
    /// test, it stands on the spine, or it is dynamic. `Missing` with the first test that a unit runs
    /// and that has no number, where others have one. `Memory` where a request for memory is refused.
    pub fn bodies(&self, alloc: Global) -> Result<Bodies, BodiesFault>
        ensures numbers { IfOk result (λ bodies. bodies ≡ bodies_of self.now) }
        ensures called { OnOk result (AreCalled (calls_of self.now)) }
        ensures fault { IfErr result (IsBodiesFault (calls_of self.now)) }
    {
        check_calls(alloc, self)?;
        Ok(Bodies::of(alloc, self)?)
    }
}
