//! What a search over a domain's layout may rest on, and where the choices in a domain lead.

ghost use Rattle.sysmem_tree.specs.LayoutLaws.{ActionAnswers, ChildrenAreChoices, ChoiceSettlesShare, ChoicesLeaveOneForest, FewChildren, FewChoices, FirstGroupIsSettled, NoneOpenIsSelection, PrefixesLeadOn};

/// The choice of a child leads on, and settles that child's share beside what was settled before,
/// whatever was chosen elsewhere; the order of the settled nodes aside.
pub fn choice_settles_share()
    ensures { ChoiceSettlesShare }
{}

/// Choices after which a layout tells the first open group are a prefix, and a selection exactly
/// where it tells none.
pub fn none_open_is_selection()
    ensures { NoneOpenIsSelection }
{}

/// The choices for the first group of a forest are its children, by their numbers.
pub fn children_are_choices()
    ensures { ChildrenAreChoices }
{}

/// The first group of a forest is among its settled nodes.
pub fn first_group_is_settled()
    ensures { FirstGroupIsSettled }
{}

/// A domain of a tree has at most 128 choices one after the other.
pub fn few_choices()
    ensures { FewChoices }
{}

/// A group of a domain has at most 128 children.
pub fn few_children()
    ensures { FewChildren }
{}

/// Choices lead to one forest by the numbers of a domain's nodes and by its shape, under two kinds
/// of labels; so what is settled, and the first group, are the same nodes.
pub fn choices_leave_one_forest()
    ensures { ChoicesLeaveOneForest }
{}

/// In a domain that is ready each prefix leads on to a selection: no group is without a child.
pub fn prefixes_lead_on()
    ensures { PrefixesLeadOn }
{}

/// An accepted action answers the child that it made, behind the children so far, or else its own
/// node.
pub fn action_answers()
    ensures { ActionAnswers }
{}
