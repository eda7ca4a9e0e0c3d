// The names of the built-in functions.
ghost use Rattle.std.specs.Prelude.{◌≡◌, ◌<◌, length};
ghost use Rattle.lua_model.specs.Builtins.{builtin_names, builtin_name as builtin_name_of};

/// How many built-in functions there are.
pub const BUILTIN_COUNT: u8 = 19;

/// The name of the built-in function of this number, in constant time.
pub fn builtin_name(id: u8) -> &'static [u8]
    requires { id < length builtin_names }
    ensures { result.now ≡ builtin_name_of id }
{
    match id {
        0 => b"print",
        1 => b"type",
        2 => b"tostring",
        3 => b"tonumber",
        4 => b"error",
        5 => b"assert",
        6 => b"select",
        7 => b"rawget",
        8 => b"rawset",
        9 => b"rawequal",
        10 => b"next",
        11 => b"pairs",
        12 => b"ipairs",
        13 => b"unpack",
        14 => b"setmetatable",
        15 => b"getmetatable",
        16 => b"ipairs_next",
        17 => b"pcall",
        _ => b"host_close",
    }
}
