//! What is true of trees, whoever makes them.

ghost use Rattle.list_lemmas.specs.Each.{ListsEach};
ghost use Rattle.sysmem_tree.specs.ActionKind.{action_name};
ghost use Rattle.sysmem_tree.specs.Laws.{OnePath, ActionIsStep, SameMapSameShape, OneForest, SoundStays, NumbersStay, ReadyStays, FailedStays, ForestStays, PathsInShapesDiffer, FewGroupsNest, SettledGrows, Counts, FirstGroup, SelectionsAreListed, OneIsEarlier, EarlierIsAnOrder, PrefixOfPrefix, Relabels, MapsOfLogs, InitialShape, Confluence};
ghost use Rattle.sysmem_tree.specs.Members.{MembersStandOnce, MembersStay};

use crate::action::ActionKind;

/// `ActionKind::ALL` has each kind of action once.
pub fn all_kinds()
    ensures { ListsEach action_name ActionKind.ALL }
{}

/// Each node has one path.
pub fn one_path()
    ensures { OnePath }
{}

/// Seen as a map from paths to nodes: an accepted action changes its own node, puts the node that
/// it makes behind the children so far, and leaves what is at each other path.
pub fn action_is_step()
    ensures { ActionIsStep }
{}

/// Trees with one map have one shape in each domain, whatever order their nodes were made in.
pub fn same_shape()
    ensures { SameMapSameShape }
{}

/// A domain's forest of node numbers and its shape are one forest under two kinds of labels.
pub fn one_forest()
    ensures { OneForest }
{}

/// What is true of each tree stays true, by accepted actions and by decisions.
pub fn sound_stays()
    ensures { SoundStays }
{}

/// A node keeps its number, its path, its parent and its domain, and a domain its root, by accepted
/// actions and by decisions.
pub fn numbers_stay()
    ensures { NumbersStay }
{}

/// Once ready a domain stays so, by actions and by decisions.
pub fn ready_stays()
    ensures { ReadyStays }
{}

/// Once failed a domain stays so, by actions and by decisions.
pub fn failed_stays()
    ensures { FailedStays }
{}

/// From ready on neither an action nor a decision changes a domain's forest, and so its shape and
/// the members of its selections.
pub fn forest_stays()
    ensures { ForestStays }
{}

/// The nodes of a shape have paths of their own, and so do those that choices settle.
pub fn paths_in_shapes_differ()
    ensures { PathsInShapesDiffer }
{}

/// In a shape at most 128 groups stand within each other.
pub fn few_groups_nest()
    ensures { FewGroupsNest }
{}

/// The members of a selection are nodes of its domain, each once.
pub fn members_stand_once()
    ensures { MembersStandOnce }
{}

/// Where a domain's forest stays, each member of a selection keeps its
/// path, its kind and its constraints.
pub fn members_stay()
    ensures { MembersStay }
{}

/// Choices only add to the nodes that are settled.
pub fn settled_grows()
    ensures { SettledGrows }
{}

/// There is one selection where there is no group, else as many as the choices for the first group
/// have together.
pub fn counts()
    ensures { Counts }
{}

/// There are as many choices as the first group has children.
pub fn first_group()
    ensures { FirstGroup }
{}

/// All selections stand in a list, each once, in their order, as long as their count.
pub fn selections_are_listed()
    ensures { SelectionsAreListed }
{}

/// Of two selections one is earlier, or they are equal.
pub fn one_is_earlier()
    ensures { OneIsEarlier }
{}

/// No selection is earlier than itself, and what is earlier than an earlier one is earlier.
pub fn earlier_is_an_order()
    ensures { EarlierIsAnOrder }
{}

/// The first choices of a prefix are a prefix.
pub fn prefix_of_prefix()
    ensures { PrefixOfPrefix }
{}

/// Other labels change neither the choices nor what they settle.
pub fn relabels()
    ensures { Relabels }
{}

/// A history makes a tree whose map is what the actions at each path make.
pub fn maps_of_logs()
    ensures { MapsOfLogs }
{}

/// The initial domain's shape, and whether its nodes are complete, depend on nothing but the
/// actions at its own paths.
pub fn initial_shape()
    ensures { InitialShape }
{}

/// Histories with the same actions at each path, in which no node is closed before the initial
/// domain's decision, leave it ready both or neither, and of one shape.
pub fn confluence()
    ensures { Confluence }
{}
