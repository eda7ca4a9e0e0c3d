//! Worked programs: the words of their chunks, their runs and their meaning, computed.
#![tactic(auto)]

ghost use Rattle.std.specs.Prelude.{◌≡◌, ◌^◌, ◌-◌, ◌++◌, pos, negsuc, true, [], ◌∷◌, codes};
ghost use Rattle.opcode.specs.declared.op.Op.{Op};
ghost use Rattle.proto.specs.declared.parts.Constant.{Constant};
ghost use Rattle.lua_model.specs.declared.plain.Plain.{Plain};
ghost use Rattle.lua_model.specs.Store.{replies_values, asked, closed};
ghost use Rattle.lua_model.specs.Endings.{Ended, Waiting};
ghost use Rattle.opcode.specs.Word.{abc, abx, asbx};
ghost use Rattle.worked.specs.Works.{HasCode, lines, prints, Works, Counts};
ghost use Rattle.worked.specs.Builtins.{kinds, texts_and_numbers, asserted, selected, raw_equality, walked, paired, metatables, unpacked};
ghost use Rattle.worked.specs.Constructs.{iterated, self_call, function_statements, keyed_items, inner_block, else_branch, stepped, single_arguments, repeated};
ghost use Rattle.worked.specs.Straight.{addition, swap, late_left, in_order, copied_key, copied_key_left, least_number, value_logic, condition, late_end, endless_count};
ghost use Rattle.worked.specs.Functions.{shared_cells, extra_arguments, several_results, tail_call, broken_loop, seen_by_until};
ghost use Rattle.worked.specs.Handlers.{index_handlers, newindex_handlers, concat_handler, missing_le, called_table, caught_table, caught_twice, kept_cell, eq_handler, le_handler, protected_200, wrapped_first, closed_host, waiting_host, ask_host, one_reply, wide_reply};

/// Sources without loops or functions of their own, and a loop whose test sees an assignment: the words of
/// their chunks, how many steps these take, and what they print; and so their meaning.
pub fn straight_line_code()
    ensures addition_code { HasCode addition 2 (Constant.Text (codes "print") ∷ Constant.Number (pos 3) ∷ []) (abx Op.GetGlobal 0 0 ∷ abx Op.LoadK 1 1 ∷ abc Op.Call 0 2 1 ∷ abc Op.Return 0 1 0 ∷ []) }
    ensures addition { Works addition [] [] 4 (prints ((codes "3" ∷ []) ∷ [])) }
    ensures swap_code { HasCode swap 5 (Constant.Number (pos 1) ∷ Constant.Text (codes "print") ∷ []) (abx Op.LoadK 0 0 ∷ abc Op.LoadNil 1 1 0 ∷ abc Op.Move 2 1 0 ∷ abc Op.Move 1 0 0 ∷ abc Op.Move 0 2 0 ∷ abx Op.GetGlobal 2 1 ∷ abc Op.Move 3 0 0 ∷ abc Op.Move 4 1 0 ∷ abc Op.Call 2 3 1 ∷ abc Op.Return 0 1 0 ∷ []) }
    ensures swap { Works swap [] [] 10 (prints ((codes "nil" ∷ codes "1" ∷ []) ∷ [])) }
    ensures late_left_code { HasCode late_left 4 (Constant.Number (pos 1) ∷ Constant.Text (codes "print") ∷ []) (abx Op.LoadK 0 0 ∷ abx Op.Closure 1 0 ∷ abc Op.Move 0 0 0 ∷ abx Op.GetGlobal 2 1 ∷ abc Op.Move 3 1 0 ∷ abc Op.Call 3 1 2 ∷ abc Op.Add 3 0 3 ∷ abc Op.Call 2 2 1 ∷ abc Op.Return 0 1 0 ∷ []) }
    ensures late_left { Works late_left [] [] 12 (prints ((codes "11" ∷ []) ∷ [])) }
    ensures in_order { Works in_order [] [] 13 (prints ((codes "xz" ∷ []) ∷ [])) }
    ensures copied_key { Works copied_key [] [] 11 (prints ((codes "3" ∷ codes "20" ∷ codes "nil" ∷ []) ∷ [])) }
    ensures copied_key_left { Works copied_key_left [] [] 12 (prints ((codes "3" ∷ codes "20" ∷ codes "nil" ∷ []) ∷ [])) }
    ensures least_number_code { HasCode least_number 2 (Constant.Text (codes "print") ∷ Constant.Number (negsuc (2 ^ 63 - 1)) ∷ []) (abx Op.GetGlobal 0 0 ∷ abx Op.LoadK 1 1 ∷ abc Op.Call 0 2 1 ∷ abc Op.Return 0 1 0 ∷ []) }
    ensures least_number { Works least_number [] [] 4 (prints ((codes "-9223372036854775808" ∷ []) ∷ [])) }
    ensures late_end_code { HasCode late_end 2 (Constant.Number (pos 1) ∷ []) (abc Op.LoadNil 0 0 0 ∷ abc Op.Test 0 0 1 ∷ asbx Op.Jmp 0 (pos 2) ∷ abx Op.LoadK 0 0 ∷ asbx Op.Jmp 0 (negsuc 3) ∷ abc Op.Return 0 1 0 ∷ []) }
    ensures late_end { Works late_end [] [] 6 (prints []) }
    ensures value_logic_code { HasCode value_logic 4 (Constant.Number (pos 1) ∷ Constant.Number (pos 2) ∷ Constant.Text (codes "print") ∷ Constant.Text (codes "lt") ∷ Constant.Text (codes "ge") ∷ []) (abx Op.LoadK 0 0 ∷ abx Op.LoadK 1 1 ∷ abx Op.GetGlobal 2 2 ∷ abc Op.Lt 1 0 1 ∷ asbx Op.Jmp 0 (pos 1) ∷ abc Op.LoadBool 3 0 1 ∷ abc Op.LoadBool 3 1 0 ∷ abc Op.Test 3 0 0 ∷ asbx Op.Jmp 0 (pos 1) ∷ abx Op.LoadK 3 3 ∷ abc Op.Test 3 0 1 ∷ asbx Op.Jmp 0 (pos 1) ∷ abx Op.LoadK 3 4 ∷ abc Op.Call 2 2 1 ∷ abc Op.Return 0 1 0 ∷ []) }
    ensures value_logic { Works value_logic [] [] 10 (prints ((codes "lt" ∷ []) ∷ [])) }
    ensures condition_code { HasCode condition 2 (Constant.Text (codes "a") ∷ Constant.Text (codes "b") ∷ Constant.Text (codes "c") ∷ Constant.Text (codes "d") ∷ []) (abx Op.GetGlobal 0 0 ∷ abc Op.Test 0 0 0 ∷ asbx Op.Jmp 0 (pos 8) ∷ abx Op.GetGlobal 0 1 ∷ abc Op.Test 0 0 1 ∷ asbx Op.Jmp 0 (pos 3) ∷ abx Op.GetGlobal 0 2 ∷ abc Op.Test 0 0 0 ∷ asbx Op.Jmp 0 (pos 2) ∷ abx Op.GetGlobal 0 3 ∷ abc Op.Call 0 1 1 ∷ abc Op.Return 0 1 0 ∷ []) }
    ensures condition { Works condition [] [] 3 (prints []) }
{}

/// Closures that share locals, extra arguments and several results, a tail call, loops whose locals are
/// captured.
pub fn functions_and_loops()
    ensures shared_cells { Works shared_cells [] [] 37 (prints ((codes "1" ∷ codes "2" ∷ codes "1" ∷ []) ∷ [])) }
    ensures extra_arguments { Works extra_arguments [] [] 14 (prints ((codes "1" ∷ codes "2" ∷ codes "1" ∷ codes "2" ∷ codes "3" ∷ []) ∷ [])) }
    ensures several_results { Works several_results [] [] 26 (prints ((codes "1" ∷ codes "1" ∷ codes "2" ∷ []) ∷ (codes "1" ∷ codes "1" ∷ []) ∷ [])) }
    ensures tail_call { Works tail_call [] [] 22 (prints ((codes "0" ∷ []) ∷ [])) }
    ensures broken_loop { Works broken_loop [] [] 28 (prints ((codes "1" ∷ codes "2" ∷ codes "nil" ∷ []) ∷ [])) }
    ensures seen_by_until { Works seen_by_until [] [] 34 (prints ((codes "0" ∷ codes "2" ∷ []) ∷ [])) }
{}

/// Each handler that is no operator of arithmetic, protected calls, hosts that are closed or have no reply
/// left.
pub fn handlers_and_hosts()
    ensures index_handlers { Works index_handlers [] [] 23 (prints ((codes "1" ∷ codes "y!" ∷ []) ∷ [])) }
    ensures newindex_handlers { Works newindex_handlers [] [] 31 (prints ((codes "nil" ∷ codes "1" ∷ codes "2" ∷ []) ∷ [])) }
    ensures concat_handler { Works concat_handler [] [] 20 (prints ((codes "a<b>" ∷ []) ∷ [])) }
    ensures missing_le { Works missing_le [] [] 26 (prints ((codes "true" ∷ codes "false" ∷ codes "false" ∷ []) ∷ [])) }
    ensures called_table { Works called_table [] [] 16 (prints ((codes "2" ∷ codes "1" ∷ []) ∷ [])) }
    ensures caught_table { Works caught_table [] [] 9 (prints ((codes "false" ∷ codes "table: 1" ∷ []) ∷ [])) }
    ensures caught_twice { Works caught_twice [] [] 8 (prints ((codes "true" ∷ codes "false" ∷ codes "7" ∷ []) ∷ [])) }
    ensures kept_cell { Works kept_cell [] [] 29 (prints ((codes "false" ∷ codes "x" ∷ []) ∷ (codes "2" ∷ codes "3" ∷ []) ∷ [])) }
    ensures eq_handler { Works eq_handler [] [] 29 (prints ((codes "true" ∷ codes "false" ∷ codes "false" ∷ codes "false" ∷ []) ∷ [])) }
    ensures le_handler { Works le_handler [] [] 30 (prints ((codes "true" ∷ codes "false" ∷ []) ∷ [])) }
    ensures protected_200 { Works protected_200 [] [] 14 (prints ((codes "false" ∷ codes "stack overflow" ∷ []) ∷ [])) }
    ensures closed_host { Works closed_host ask_host [] 12 (record { ending = Ended; events = closed 0 ∷ lines ((codes "true" ∷ codes "false" ∷ codes "false" ∷ codes "host is closed" ∷ []) ∷ []) }) }
    ensures waiting_host { Works waiting_host ask_host one_reply 10 (record { ending = Waiting; events = asked 0 (Plain.Number (pos 1) ∷ Plain.Text (codes "x") ∷ Plain.Nil ∷ []) (replies_values (Plain.Bool true ∷ Plain.Number (pos 5) ∷ [])) ∷ lines ((codes "true" ∷ codes "5" ∷ []) ∷ []) }) }
    ensures wrapped_first { Works wrapped_first ask_host wide_reply 19 (record { ending = Ended; events = asked 0 [] (replies_values (Plain.Number (pos 18446744073709551617) ∷ [])) ∷ lines ((codes "1" ∷ []) ∷ (codes "2" ∷ []) ∷ (codes "3" ∷ []) ∷ []) }) }
{}

/// Constructs that the others have not.
pub fn constructs()
    ensures iterated { Works iterated [] [] 27 (prints ((codes "1" ∷ codes "0" ∷ []) ∷ (codes "2" ∷ codes "1" ∷ []) ∷ [])) }
    ensures self_call { Works self_call [] [] 16 (prints ((codes "3" ∷ codes "3" ∷ []) ∷ [])) }
    ensures function_statements { Works function_statements [] [] 25 (prints ((codes "8" ∷ []) ∷ [])) }
    ensures keyed_items { Works keyed_items [] [] 12 (prints ((codes "a" ∷ codes "b" ∷ codes "c" ∷ codes "2" ∷ []) ∷ [])) }
    ensures inner_block { Works inner_block [] [] 9 (prints ((codes "2" ∷ []) ∷ (codes "1" ∷ []) ∷ [])) }
    ensures else_branch { Works else_branch [] [] 24 (prints ((codes "one" ∷ codes "some" ∷ codes "none" ∷ []) ∷ [])) }
    ensures stepped { Works stepped [] [] 23 (prints ((codes "5" ∷ []) ∷ (codes "3" ∷ []) ∷ (codes "1" ∷ []) ∷ [])) }
    ensures single_arguments { Works single_arguments [] [] 19 (prints ((codes "x" ∷ codes "y" ∷ codes "7" ∷ []) ∷ [])) }
    ensures repeated { Works repeated [] [] 11 (prints ((codes "3" ∷ []) ∷ [])) }
{}

/// Calls of built-in functions.
pub fn built_in_functions()
    ensures kinds { Works kinds [] [] 21 (prints ((codes "nil" ∷ codes "boolean" ∷ codes "number" ∷ codes "string" ∷ codes "table" ∷ codes "function" ∷ []) ∷ [])) }
    ensures texts_and_numbers { Works texts_and_numbers [] [] 18 (prints ((codes "16" ∷ codes "nil" ∷ codes "3" ∷ codes "nil" ∷ codes "12" ∷ []) ∷ [])) }
    ensures asserted { Works asserted [] [] 16 (prints ((codes "1" ∷ codes "false" ∷ codes "false" ∷ codes "m" ∷ []) ∷ [])) }
    ensures selected { Works selected [] [] 19 (prints ((codes "2" ∷ codes "b" ∷ codes "b" ∷ []) ∷ [])) }
    ensures raw_equality { Works raw_equality [] [] 15 (prints ((codes "true" ∷ codes "false" ∷ codes "false" ∷ []) ∷ [])) }
    ensures walked { Works walked [] [] 22 (prints ((codes "x" ∷ codes "6" ∷ []) ∷ (codes "nil" ∷ []) ∷ (codes "1" ∷ codes "5" ∷ []) ∷ [])) }
    ensures paired { Works paired [] [] 39 (prints ((codes "x" ∷ codes "6" ∷ []) ∷ (codes "1" ∷ codes "5" ∷ []) ∷ (codes "1" ∷ codes "7" ∷ []) ∷ (codes "2" ∷ codes "8" ∷ []) ∷ [])) }
    ensures metatables { Works metatables [] [] 22 (prints ((codes "nil" ∷ codes "true" ∷ codes "p" ∷ []) ∷ [])) }
    ensures unpacked { Works unpacked [] [] 20 (prints ((codes "2" ∷ codes "1" ∷ codes "2" ∷ []) ∷ [])) }
{}

/// The variable of a numeric `for` wraps: a loop up to the greatest number goes on.
pub fn count_past_the_greatest()
    ensures two { Counts endless_count 15 ((codes "9223372036854775806" ∷ []) ∷ (codes "9223372036854775807" ∷ []) ∷ []) }
    ensures three { Counts endless_count 16 ((codes "9223372036854775806" ∷ []) ∷ (codes "9223372036854775807" ∷ []) ∷ (codes "-9223372036854775808" ∷ []) ∷ []) }
{}
