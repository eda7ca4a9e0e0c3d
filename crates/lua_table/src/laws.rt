// What holds of a table's list of pairs.
ghost use Rattle.lua_table.specs.Laws.{SameValueIsEquality, SetThenGet, KeysStayApart, OneBorder, SetKeepsSound, NextWalks};

/// Raw equality of values is equality. A law, with nothing to run.
pub fn same_value_is_equality()
    ensures { SameValueIsEquality }
{}

/// A key has the value that it was set to. A law, with nothing to run.
pub fn set_then_get()
    ensures { SetThenGet }
{}

/// A key that is set leaves the values and the places of the others. A law, with nothing to run.
pub fn keys_stay_apart()
    ensures { KeysStayApart }
{}

/// Each list of pairs has a border, and no other one. A law, with nothing to run.
pub fn one_border()
    ensures { OneBorder }
{}

/// No key comes to stand twice, and none is nil. A law, with nothing to run.
pub fn set_keeps_sound()
    ensures { SetKeepsSound }
{}

/// From nil on, `next` gives each pair whose value is not nil, once and in order. A law, with nothing to run.
pub fn next_walks()
    ensures { NextWalks }
{}
