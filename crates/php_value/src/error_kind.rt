// Errors that the engine itself throws.

/// The kind of an error that the engine throws: it decides the error's class and its message.
#[derive(Clone, Copy, Debug, Eq, PartialEq)]
pub struct ErrorKind(pub u8);

impl ErrorKind {
    /// `Call to undefined function NAME()`
    pub const UNDEFINED_FUNCTION: ErrorKind = ErrorKind(1);
    /// `Call to undefined method CLASS::NAME()`
    pub const UNDEFINED_METHOD: ErrorKind = ErrorKind(2);
    /// `Class 'NAME' not found`
    pub const CLASS_NOT_FOUND: ErrorKind = ErrorKind(3);
    /// `Undefined constant 'NAME'`
    pub const UNDEFINED_CONSTANT: ErrorKind = ErrorKind(4);
    /// `Cannot access CLASS::NAME`
    pub const CANNOT_ACCESS: ErrorKind = ErrorKind(5);
    /// `Cannot instantiate CLASS`
    pub const CANNOT_INSTANTIATE: ErrorKind = ErrorKind(6);
    /// `Using $this when not in object context`
    pub const NO_THIS: ErrorKind = ErrorKind(7);
    /// `Cannot use a value of type T as an array`
    pub const NOT_AN_ARRAY: ErrorKind = ErrorKind(8);
    /// `Cannot use a value of type T as an object`
    pub const NOT_AN_OBJECT: ErrorKind = ErrorKind(9);
    /// `Unsupported operand types`
    pub const UNSUPPORTED_OPERANDS: ErrorKind = ErrorKind(10);
    /// `Cannot append: no key is left`
    pub const NO_KEY_LEFT: ErrorKind = ErrorKind(11);
    /// `Object of class CLASS could not be converted to string`
    pub const NO_TEXT_OF_OBJECT: ErrorKind = ErrorKind(12);
    /// `Nesting too deep`
    pub const NESTING_TOO_DEEP: ErrorKind = ErrorKind(13);
    /// `Cannot compare an object with a string`
    pub const OBJECT_AGAINST_STRING: ErrorKind = ErrorKind(14);
    /// `Cannot count this value up or down`
    pub const NOT_COUNTABLE: ErrorKind = ErrorKind(15);
    /// `Value is not callable`
    pub const NOT_CALLABLE: ErrorKind = ErrorKind(16);
    /// `Bad argument for NAME()`
    pub const BAD_ARGUMENT: ErrorKind = ErrorKind(17);
    /// `Can only throw objects`
    pub const ONLY_OBJECTS_THROWN: ErrorKind = ErrorKind(18);
    /// `Generator cannot be used here`
    pub const BAD_GENERATOR_USE: ErrorKind = ErrorKind(19);
    /// `Bad offset or access`
    pub const BAD_OFFSET: ErrorKind = ErrorKind(20);
    /// `Division by zero`, a DivisionByZeroError
    pub const DIVISION_BY_ZERO: ErrorKind = ErrorKind(21);
    /// `Arithmetic error`, an ArithmeticError
    pub const ARITHMETIC: ErrorKind = ErrorKind(22);
    /// `Value of type T does not fit`, a TypeError
    pub const TYPE_MISMATCH: ErrorKind = ErrorKind(23);
    /// `Too few arguments to NAME()`, an ArgumentCountError
    pub const TOO_FEW_ARGUMENTS: ErrorKind = ErrorKind(24);
    /// `Generator is past its start or at its end`, an Exception
    pub const GENERATOR_PLACE: ErrorKind = ErrorKind(25);
}
