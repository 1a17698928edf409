// Field elements.
ghost use Rattle.std.specs.Prelude.{◌≡◌};
ghost use Rattle.field.specs.Answers.{sum_answer, product_answer, inverse_answer};
ghost use Rattle.wire.specs.Wire.{element_code};

#[unsafe(no_mangle)]
pub extern "C" fn zov_field_sum(m: u32, a: u32, b: u32) -> u32
    ensures { result ≡ element_code (sum_answer m a b) }
{
    wire::value_code(field::sum(m, a, b))
}

#[unsafe(no_mangle)]
pub extern "C" fn zov_field_product(m: u32, a: u32, b: u32) -> u32
    ensures { result ≡ element_code (product_answer m a b) }
{
    wire::value_code(field::product(m, a, b))
}

#[unsafe(no_mangle)]
pub extern "C" fn zov_field_inverse(m: u32, a: u32) -> u32
    ensures { result ≡ element_code (inverse_answer m a) }
{
    wire::value_code(field::inverse(m, a))
}
