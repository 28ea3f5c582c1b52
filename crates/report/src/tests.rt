// Worked texts, by hand.
use super::{Kind, images_text, survey_text, type_text};
use motions::Miller;
use std::alloc::AllocError;
use std::test::Fail;
use surveys::Surveyed;

#[test]
fn the_images_of_a_face_of_a_fourfold_axis(rt: HostRuntime) -> Result<(), AllocError> {
    let images = [[1, 0, 0], [-1, 0, 0], [0, -1, 0], [0, 1, 0]];
    let text = images_text(rt.alloc(), &images)?;
    let expected = "image 1 0 0\nimage -1 0 0\nimage 0 -1 0\nimage 0 1 0\nend\n";
    assert_eq!(rt; text.as_slice(), expected.as_bytes());
    Ok(())
}

#[test]
fn the_faces_of_a_cube_in_three_classes(rt: HostRuntime) -> Result<(), Fail> {
    let list = [
        Surveyed {
            plane: Miller::make(1, 1, 1)?,
            images: 8,
            special: 2,
        },
        Surveyed {
            plane: Miller::make(1, 1, 0)?,
            images: 12,
            special: 2,
        },
        Surveyed {
            plane: Miller::make(1, 0, 0)?,
            images: 6,
            special: 2,
        },
    ];
    let text = survey_text(rt.alloc(), &list)?;
    let expected =
        "plane 1 1 1 images 8 special 2\nplane 1 1 0 images 12 special 2\nplane 1 0 0 images 6 special 2\nend\n";
    assert_eq!(rt; text.as_slice(), expected.as_bytes());
    Ok(())
}

#[test]
fn the_layer_type_p112_a(rt: HostRuntime) -> Result<(), AllocError> {
    let text = type_text(rt.alloc(), Kind::Layer, 7)?;
    let expected = "layer 7 p112/a\nop x,y,z\nop x+1/2,y,-z\nop -x+1/2,-y,z\nop -x,-y,-z\nend\n";
    assert_eq!(rt; text.as_slice(), expected.as_bytes());
    Ok(())
}

#[test]
fn a_centred_layer_type_has_its_centring(rt: HostRuntime) -> Result<(), AllocError> {
    let text = type_text(rt.alloc(), Kind::Layer, 13)?;
    let expected = "layer 13 cm11\ncentring 1/2,1/2,0\nop x,y,z\nop -x,y,z\nend\n";
    assert_eq!(rt; text.as_slice(), expected.as_bytes());
    Ok(())
}

#[test]
fn the_rod_type_p4_3(rt: HostRuntime) -> Result<(), AllocError> {
    let text = type_text(rt.alloc(), Kind::Rod, 26)?;
    let expected = "rod 26 p4_3\nop x,y,z\nop y,-x,z+1/4\nop -y,x,z+3/4\nop -x,-y,z+1/2\nend\n";
    assert_eq!(rt; text.as_slice(), expected.as_bytes());
    Ok(())
}

#[test]
fn the_frieze_type_p2mg(rt: HostRuntime) -> Result<(), AllocError> {
    let text = type_text(rt.alloc(), Kind::Frieze, 7)?;
    let expected = "frieze 7 p2mg\nop x,y\nop x+1/2,-y\nop -x+1/2,y\nop -x,-y\nend\n";
    assert_eq!(rt; text.as_slice(), expected.as_bytes());
    Ok(())
}
